//! The moves with a letter out of a set of states, in the order of their letters. They are sorted only where they are out of order,
//! which costs their number times its logarithm, and else one pass. A target takes 32 bits: a move of eight bytes is sorted faster.

ghost use Rattle.std.specs.Prelude.{◌≡◌, ◌↔◌, ◌<◌, ◌++◌, ℕ, Contains, IsTrue, length, map, IfOk, OnOk};
ghost use Rattle.std.specs.List.{filter_map};
ghost use Rattle.word_automata.specs.StateSets.{AreStates};
ghost use Rattle.determinise.specs.private.Subsets.{lettered_move, moves_from, order_key, HasOrderedLetters, AreOrderedMoves, IsRun};

use std::alloc::{AllocError, Global};
use word_automata::Nfa;

/// Room for so many moves of each state is made at once.
const ROOM: usize = 8;

/// Targets are below this number.
const TARGETS: u64 = 1 << 32;

/// The moves out of the states, by letters that do not decrease. Targets from 2 to the 32 on are answered as running out of memory.
pub fn ordered_moves(
    alloc: Global,
    automaton: &Nfa,
    states: &[usize],
) -> Result<Vec<(u32, u32)>, AllocError>
    requires { AreStates automaton.now states.now }
    ensures { IfOk result (λ moves. AreOrderedMoves automaton.now states.now moves.items) }
{
    let mut moves = moves_from(alloc, automaton, states)?;
    if are_ordered(&moves) {
        return Ok(moves);
    }
    moves.sort_unstable_by_key(|&(letter, to)| order_key(letter, to));
    Ok(moves)
}

/// Whether the moves are in order, as those of one state are where its edges are.
fn are_ordered(moves: &[(u32, u32)]) -> bool
    ensures { IsTrue result → HasOrderedLetters moves.now }
{
    'moves: for at in 1..moves.len() {
        let (before, from) = moves[at - 1];
        let (letter, to) = moves[at];
        if order_key(before, from) > order_key(letter, to) {
            return false;
        }
    }
    true
}

/// The letter above the target: one number, so that moves are compared at once.
fn order_key(letter: u32, to: u32) -> u64
    ensures { result ≡ order_key (letter, to) }
{
    u64::from(letter) * TARGETS + u64::from(to)
}

/// The moves out of the states, one state after another.
fn moves_from(
    alloc: Global,
    automaton: &Nfa,
    states: &[usize],
) -> Result<Vec<(u32, u32)>, AllocError>
    requires { AreStates automaton.now states.now }
    ensures { IfOk result (λ moves. moves.items ≡ moves_from automaton.now states.now) }
{
    let mut moves = Vec::with_capacity(alloc, states.len().saturating_mul(ROOM))?;
    'states: for state in states {
        add_moves(&mut moves, automaton.edges_from(*state))?;
    }
    Ok(moves)
}

/// Adds the moves of the edges with a letter.
fn add_moves(moves: &mut Vec<(u32, u32)>, edges: &[(Option<u32>, usize)]) -> Result<(), AllocError>
    ensures { OnOk result (moves.new.items ≡ moves.old.items ++ filter_map lettered_move edges.now) }
{
    'edges: for &(letter, to) in edges {
        if let Some(letter) = letter {
            let to = in_32_bits(to)?;
            moves.push((letter, to))?;
        }
    }
    Ok(())
}

/// The number in 32 bits.
fn in_32_bits(number: usize) -> Result<u32, AllocError>
    ensures { IfOk result (λ same. same ≡ number) }
{
    u32::try_from(number).map_err(|_| AllocError)
}

/// The place after the last move with the letter of the move at the place.
pub fn end_of_run(moves: &[(u32, u32)], at: usize) -> usize
    requires within { at < length moves.now }
    requires ordered { HasOrderedLetters moves.now }
    ensures { IsRun moves.now at result }
{
    let mut end = at + 1;
    'run: while end < moves.len() && moves[end].0 == moves[at].0 {
        end += 1;
    }
    end
}

/// The targets of the moves, each once where equal targets stand side by side.
pub fn targets(alloc: Global, moves: &[(u32, u32)]) -> Result<Vec<usize>, AllocError>
    ensures { IfOk result (λ targets. (q : ℕ) → Contains targets.items q ↔ Contains (map (λ move. move.1) moves.now) q) }
{
    let mut targets = Vec::with_capacity(alloc, moves.len())?;
    'moves: for &(_, to) in moves {
        if !ends_with(&targets, to as usize) {
            targets.push(to as usize)?;
        }
    }
    Ok(targets)
}

/// Whether the state is the last of the list.
fn ends_with(states: &[usize], state: usize) -> bool
    ensures { IsTrue result → Contains states.now state }
{
    match states.last() {
        Some(last) => *last == state,
        None => false,
    }
}
