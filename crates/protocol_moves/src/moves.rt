//! Whether a move leads from one list to another.
//! The extents of guards and of changes are found first, so that each position is judged in constant time; no memory is taken.

ghost use Rattle.std.specs.Prelude.{◌≡◌, ◌≤◌, ◌↔◌, [], ◌∷◌, ◌++◌, IsTrue, length, map};
ghost use Rattle.std.specs.Bool.{Decides};
ghost use Rattle.protocol_syntax.specs.declared.limits.TheConstants.{MAX_GUARDS};
ghost use Rattle.protocol_model.specs.Moves.{IsAtMove, IsPairMove, IsTwoMove, IsRingMove, IsStackMove, IsLoss, IsMove};
ghost use Rattle.protocol_moves.specs.private.Extents.{is_hit as hits, is_region_hit as hits_region, holds_at as holds, changes, IsExtent, HaveExtents, all_hold};
ghost use Rattle.protocol_moves.specs.Limits.{HasFewGuards};

use crate::extent::Extent;
use crate::results::below;
use protocol_model::{Guard, Move, is_in, table_value};
use protocol_syntax::Region;

/// Whether the letter decides the guard: one outside of its set where all must belong to it, and else one of the set.
fn is_hit(guard: &Guard, letter: u32) -> bool
    ensures { result ≡ hits guard.now letter }
{
    let known = is_in(guard.letters.as_slice(), letter);
    if guard.all { !known } else { known }
}

/// The positions of the list whose letters decide the guard.
fn guard_extent(guard: &Guard, list: &[u32]) -> Extent
    ensures { IsExtent (map (hits guard.now) list.now) result.first result.last }
{
    let mut extent = Extent {
        first: list.len(),
        last: 0,
    };
    'positions: for i in 0..list.len() {
        extent = extent.next(i, is_hit(guard, list[i]));
    }
    extent
}

/// The positions whose new letter is not what the table makes of the old one.
fn change_extent(table: &[(u32, u32)], old: &[u32], new: &[u32]) -> Extent
    requires { length old.now ≡ length new.now }
    ensures { IsExtent (changes table.now old.now new.now) result.first result.last }
{
    let mut extent = Extent {
        first: old.len(),
        last: 0,
    };
    'positions: for i in 0..old.len() {
        extent = extent.next(i, table_value(table, old[i]) != new[i]);
    }
    extent
}

/// The positions of the list whose letters decide each guard.
pub fn guard_extents(guards: &[Guard], list: &[u32]) -> [Extent; 4]
    requires { length guards.now ≤ MAX_GUARDS }
    ensures { HaveExtents guards.now result list.now }
{
    let mut extents = [Extent { first: 0, last: 0 }; 4];
    'guards: for k in 0..guards.len() {
        extents[k] = guard_extent(&guards[k], list);
    }
    extents
}

/// Whether the region of a position has a letter that decides the guard, where the positions before and after it have one so.
fn is_region_hit(region: Region, before: bool, after: bool) -> bool
    ensures { result ≡ hits_region region before after }
{
    match region {
        Region::Left => before,
        Region::Right => after,
        Region::Others => before || after,
    }
}

/// Whether the guard holds at a position, where the positions before and after it have a letter that decides it so.
fn holds_at(guard: &Guard, before: bool, after: bool) -> bool
    ensures { result ≡ holds guard.now before after }
{
    let hit = is_region_hit(guard.region, before, after);
    if guard.all { !hit } else { hit }
}

/// Whether all guards hold at the position.
pub fn guards_hold(guards: &[Guard], extents: &[Extent], i: usize) -> bool
    requires { length guards.now ≤ length extents.now }
    ensures { result ≡ all_hold guards.now extents.now i }
{
    'guards: for k in 0..guards.len() {
        let extent = extents[k];
        if !holds_at(&guards[k], extent.first < i, i < extent.last) {
            return false;
        }
    }
    true
}

/// Whether a position changes so, where the guards hold before, and the table changes all others; in time proportional to the lists.
fn is_at_move(
    change: (u32, u32),
    guards: &[Guard],
    table: &[(u32, u32)],
    old: &[u32],
    new: &[u32],
) -> bool
    requires { length guards.now ≤ MAX_GUARDS }
    ensures { IsTrue result ↔ IsAtMove change.0 change.1 guards.now table.now old.now new.now }
{
    if old.len() != new.len() {
        return false;
    }
    let extents = guard_extents(guards, old);
    let changed = change_extent(table, old, new);
    'positions: for i in 0..old.len() {
        let moves = (old[i] == change.0) & (new[i] == change.1);
        let stays = changed.is_within(i, i);
        let holds = guards_hold(guards, &extents, i);
        if moves & stays & holds {
            return true;
        }
    }
    false
}

/// Whether two neighbours change so, and all others stay; in time proportional to the lists.
fn is_pair_move(was: (u32, u32), becomes: (u32, u32), old: &[u32], new: &[u32]) -> bool
    ensures { IsTrue result ↔ IsPairMove was.0 was.1 becomes.0 becomes.1 old.now new.now }
{
    if old.len() != new.len() {
        return false;
    }
    let changed = change_extent(&[], old, new);
    'neighbours: for i in 1..old.len() {
        let left = (old[i - 1] == was.0) & (new[i - 1] == becomes.0);
        let right = (old[i] == was.1) & (new[i] == becomes.1);
        let stays = changed.is_within(i - 1, i);
        if left & right & stays {
            return true;
        }
    }
    false
}

/// Whether two positions change so in either order, and all others stay; in time proportional to the lists.
fn is_two_move(was: (u32, u32), becomes: (u32, u32), old: &[u32], new: &[u32]) -> bool
    ensures { IsTrue result ↔ IsTwoMove was.0 was.1 becomes.0 becomes.1 old.now new.now }
{
    if old.len() != new.len() {
        return false;
    }
    let mut none = true;
    let mut one = false;
    let mut other = false;
    let mut both = false;
    'positions: for i in 0..old.len() {
        let stays = old[i] == new[i];
        let is_one = (old[i] == was.0) & (new[i] == becomes.0);
        let is_other = (old[i] == was.1) & (new[i] == becomes.1);
        both = (both & stays) | (other & is_one) | (one & is_other);
        one = (one & stays) | (none & is_one);
        other = (other & stays) | (none & is_other);
        none = none & stays;
    }
    both
}

/// Whether the last letter and the first one change so, and all others stay.
fn is_ring_move(was: (u32, u32), becomes: (u32, u32), old: &[u32], new: &[u32]) -> bool
    ensures { IsTrue result ↔ IsRingMove was.0 was.1 becomes.0 becomes.1 old.now new.now }
{
    let Some((old_first, old_rest)) = old.split_first() else {
        return false;
    };
    let Some((new_first, new_rest)) = new.split_first() else {
        return false;
    };
    let Some((old_last, old_between)) = old_rest.split_last() else {
        return false;
    };
    let Some((new_last, new_between)) = new_rest.split_last() else {
        return false;
    };
    let first = (*old_first == was.1) & (*new_first == becomes.1);
    let last = (*old_last == was.0) & (*new_last == becomes.0);
    first & last & is_equal(old_between, new_between)
}

/// Whether two lists are equal.
pub fn is_equal(a: &[u32], b: &[u32]) -> bool
    ensures { Decides result (a.now ≡ b.now) }
{
    a == b
}

/// Whether the list is this one letter.
pub fn is_single(list: &[u32], letter: u32) -> bool
    ensures { IsTrue result ↔ (list.now ≡ letter ∷ []) }
{
    is_equal(list, &[letter])
}

/// Whether the letter of a cell changes so.
fn is_set_move(from: u32, to: u32, old: &[u32], new: &[u32]) -> bool
    ensures { IsTrue result ↔ ((old.now ≡ from ∷ []) × (new.now ≡ to ∷ [])) }
{
    is_single(old, from) & is_single(new, to)
}

/// Whether the longer list is the shorter one, and then the letter.
fn is_send_move(letter: u32, shorter: &[u32], longer: &[u32]) -> bool
    ensures { IsTrue result ↔ (longer.now ≡ shorter.now ++ letter ∷ []) }
{
    match longer.split_last() {
        Some((last, rest)) => (*last == letter) & is_equal(rest, shorter),
        None => false,
    }
}

/// Whether the longer list is the letter, and then the shorter one.
fn is_recv_move(letter: u32, longer: &[u32], shorter: &[u32]) -> bool
    ensures { IsTrue result ↔ (longer.now ≡ letter ∷ shorter.now) }
{
    match longer.split_first() {
        Some((first, rest)) => (*first == letter) & is_equal(rest, shorter),
        None => false,
    }
}

/// Whether the list is the one, and then the other.
fn is_joined(first: &[u32], second: &[u32], list: &[u32]) -> bool
    ensures { IsTrue result ↔ (list.now ≡ first.now ++ second.now) }
{
    if list.len() < first.len() {
        return false;
    }
    is_equal(&list[..first.len()], first) & is_equal(&list[first.len()..], second)
}

/// Whether the popped letter leaves the left end, and then the pushed letters stand there.
fn is_stack_move(pop: &Option<u32>, push: &[u32], old: &[u32], new: &[u32]) -> bool
    ensures { IsTrue result ↔ IsStackMove pop.now push.now old.now new.now }
{
    match pop {
        None => is_joined(push, old, new),
        Some(top) => match old.split_first() {
            Some((first, below)) => (*first == *top) & is_joined(push, below, new),
            None => false,
        },
    }
}

/// Whether the shorter list is the longer one without a letter of the set; in time proportional to the lists. Where the lists go apart, or
/// at the end of the shorter one, is the letter that is missing, or the last of a run of it.
fn is_loss(letters: &[u32], longer: &[u32], shorter: &[u32]) -> bool
    ensures { IsTrue result ↔ IsLoss letters.now longer.now shorter.now }
{
    let mut left = longer;
    let mut kept = shorter;
    'same: while let Some((first, rest)) = left.split_first() {
        let Some(others) = below(Some(*first), kept) else {
            return is_in(letters, *first) & is_equal(rest, kept);
        };
        left = rest;
        kept = others;
    }
    false
}

/// Whether the move leads from one list to the other.
pub fn is_move(step: &Move, old: &[u32], new: &[u32]) -> bool
    requires { HasFewGuards step.now }
    ensures { IsTrue result ↔ IsMove step.now old.now new.now }
{
    match step {
        Move::At {
            from,
            to,
            guards,
            map,
        } => is_at_move((*from, *to), guards.as_slice(), map.as_slice(), old, new),
        Move::Pair { a, b, c, d } => is_pair_move((*a, *b), (*c, *d), old, new),
        Move::Ring { a, b, c, d } => is_ring_move((*a, *b), (*c, *d), old, new),
        Move::Two { a, b, c, d } => is_two_move((*a, *b), (*c, *d), old, new),
        Move::Set { from, to } => is_set_move(*from, *to, old, new),
        Move::Send { letter } => is_send_move(*letter, old, new),
        Move::Recv { letter } => is_recv_move(*letter, old, new),
        Move::Stack { pop, push } => is_stack_move(pop, push.as_slice(), old, new),
        Move::Spawn { letter } => is_send_move(*letter, old, new),
        Move::Exit { letter } => is_loss(&[*letter], old, new),
        Move::Lose { letters } => is_loss(letters.as_slice(), old, new),
    }
}
