//! Whether a move leads anywhere from a list.
//! The positions are tried one after the other, and for a move of two positions the first only where its letter stands; no memory is taken.

ghost use Rattle.std.specs.Prelude.{◌≡◌, ◌≤◌, ◌<◌, ◌-◌, ◌+◌, ◌↔◌, ◌++◌, ◌∷◌, [], ℕ, List, IsTrue, length};
ghost use Rattle.std.specs.List.{list_any};
ghost use Rattle.protocol_syntax.specs.declared.limits.TheConstants.{MAX_GUARDS};
ghost use Rattle.protocol_model.specs.Moves.{is_in as is_listed, popped};
ghost use Rattle.protocol_moves.specs.Limits.{HasFewGuards};
ghost use Rattle.protocol_moves.specs.Results.{IsEnabled};
ghost use Rattle.protocol_moves.specs.private.Gathering.{some_below, can_change_at, can_change_two};

use crate::moves::{guard_extents, guards_hold, is_single};
use crate::results::below;
use protocol_model::{Guard, Move, is_in};

/// Whether some position has this letter where the guards hold.
fn has_start(from: u32, guards: &[Guard], list: &[u32]) -> bool
    requires { length guards.now ≤ MAX_GUARDS }
    ensures { result ≡ some_below (can_change_at from guards.now list.now) (length list.now) }
{
    let extents = guard_extents(guards, list);
    'positions: for i in 0..list.len() {
        let starts = list[i] == from;
        let holds = guards_hold(guards, &extents, i);
        if starts & holds {
            return true;
        }
    }
    false
}

/// Whether the position and the next one have these letters.
fn has_neighbours(a: u32, b: u32, list: &[u32]) -> bool
    ensures { result ≡ some_below (λ k. can_change_two a b list.now k (k + 1)) (length list.now - 1) }
{
    'neighbours: for i in 1..list.len() {
        let left = list[i - 1] == a;
        let right = list[i] == b;
        if left & right {
            return true;
        }
    }
    false
}

/// Whether the position has the one letter, and another position the other.
fn has_partner(i: usize, a: u32, b: u32, list: &[u32]) -> bool
    requires { i < length list.now }
    ensures { result ≡ some_below (can_change_two a b list.now i) (length list.now) }
{
    let first = list[i];
    if first != a {
        return false;
    }
    'partners: for j in 0..list.len() {
        let apart = i != j;
        let partner = list[j] == b;
        if apart & partner {
            return true;
        }
    }
    false
}

/// Whether two distinct positions have these letters.
fn has_two(a: u32, b: u32, list: &[u32]) -> bool
    ensures { result ≡ some_below (λ i. some_below (can_change_two a b list.now i) (length list.now)) (length list.now) }
{
    if !is_in(list, b) {
        return false;
    }
    'positions: for i in 0..list.len() {
        if has_partner(i, a, b, list) {
            return true;
        }
    }
    false
}

/// Whether there are two positions or more, and the last and the first of them have these letters.
fn has_ends(a: u32, b: u32, list: &[u32]) -> bool
    ensures { result ≡ can_change_two a b list.now (length list.now - 1) 0 }
{
    let n = list.len();
    n > 1 && list[n - 1] == a && list[0] == b
}

/// Whether the popped letter, if any, stands at the left end.
fn has_top(pop: Option<u32>, list: &[u32]) -> bool
    ensures { IsTrue result ↔ ((rest : List ℕ) × (list.now ≡ popped pop ++ rest)) }
{
    match below(pop, list) {
        Some(_) => true,
        None => false,
    }
}

/// Whether the list has a letter of the set.
fn has_any(letters: &[u32], list: &[u32]) -> bool
    ensures { result ≡ list_any (is_listed letters.now) list.now }
{
    list.iter().any(|letter| is_in(letters, *letter))
}

/// Whether the move leads from the list to some list, in time proportional to the list. It takes no memory.
pub fn is_enabled(step: &Move, list: &[u32]) -> bool
    requires { HasFewGuards step.now }
    ensures { IsTrue result ↔ IsEnabled step.now list.now }
{
    match step {
        Move::At {
            from,
            to: _,
            guards,
            map: _,
        } => has_start(*from, guards.as_slice(), list),
        Move::Pair { a, b, c: _, d: _ } => has_neighbours(*a, *b, list),
        Move::Ring { a, b, c: _, d: _ } => has_ends(*a, *b, list),
        Move::Two { a, b, c: _, d: _ } => has_two(*a, *b, list),
        Move::Set { from, to: _ } => is_single(list, *from),
        Move::Send { letter: _ } => true,
        Move::Recv { letter } => has_top(Some(*letter), list),
        Move::Stack { pop, push: _ } => has_top(*pop, list),
        Move::Spawn { letter: _ } => true,
        Move::Exit { letter } => has_any(&[*letter], list),
        Move::Lose { letters } => has_any(letters.as_slice(), list),
    }
}
