//! The states of a set that none of the others simulates, which accept the same words (P. A. Abdulla and others, 2010). For each state
//! with others above it, either these are looked up in the set, or the states of the set are compared with it, whichever is shorter.

ghost use Rattle.std.specs.Prelude.{ℕ, ◌++◌, Contains, IsTrue, IfOk};
ghost use Rattle.word_automata.specs.Nondeterministic.{NondeterministicAutomaton};
ghost use Rattle.reduction.specs.Reduction.{KeepsStarts};
ghost use Rattle.reduction.specs.Simulation.{IsBelow, AreIncluded};

use reduction::{StatePairs, is_below};
use std::alloc::{AllocError, Global};

/// The words of a filter, of a power of two.
const WORDS: usize = 32;

/// The bits of a word.
const BITS: usize = 64;

/// The states without those that are below others of them, in their order. Of states below each other the last one stays.
pub fn maximal_states(
    alloc: Global,
    pairs: &StatePairs,
    states: Vec<usize>,
) -> Result<Vec<usize>, AllocError>
    ensures { IfOk result (λ kept. (n : NondeterministicAutomaton) → AreIncluded n pairs.now → KeepsStarts n states.items kept.items) }
{
    if !has_low(pairs, &states) {
        return Ok(states);
    }
    without_low(alloc, pairs, &states)
}

/// Whether one of the states is below another one, in the set or not.
fn has_low(pairs: &StatePairs, states: &[usize]) -> bool {
    'states: for state in states {
        if pairs.is_low(*state) {
            return true;
        }
    }
    false
}

/// The states without those that are below states kept before them or below states after them.
fn without_low(
    alloc: Global,
    pairs: &StatePairs,
    states: &[usize],
) -> Result<Vec<usize>, AllocError>
    ensures { IfOk result (λ kept. (n : NondeterministicAutomaton) → AreIncluded n pairs.now → KeepsStarts n states.now kept.items) }
{
    let filter = filter_of(states);
    let mut kept = Vec::with_capacity(alloc, states.len())?;
    'states: for at in 0..states.len() {
        if !is_below_one(pairs, &filter, &kept, &states[at + 1..], states[at]) {
            kept.push(states[at])?;
        }
    }
    Ok(kept)
}

/// Whether the state is below one of the states before or after it. Those that the filter does not have are none of them.
fn is_below_one(
    pairs: &StatePairs,
    filter: &[u64],
    before: &[usize],
    after: &[usize],
    state: usize,
) -> bool
    ensures { IsTrue result → (r : ℕ) × Contains (before.now ++ after.now) r × IsBelow pairs.now state r }
{
    let above = pairs.above(state);
    if above.len() > before.len().saturating_add(after.len()) {
        return is_below_some(pairs, before, state) || is_below_some(pairs, after, state);
    }
    'above: for other in above {
        if has_one(filter, before, after, *other) && is_below(pairs, state, *other) {
            return true;
        }
    }
    false
}

/// Whether the state is one of the states before or after. Those that the filter does not have are none of them.
fn has_one(filter: &[u64], before: &[usize], after: &[usize], state: usize) -> bool
    ensures { IsTrue result → Contains (before.now ++ after.now) state }
{
    if !may_have(filter, state) {
        return false;
    }
    has(before, state) || has(after, state)
}

/// Whether the state is below one of the states.
fn is_below_some(pairs: &StatePairs, states: &[usize], state: usize) -> bool
    ensures { IsTrue result → (r : ℕ) × Contains states.now r × IsBelow pairs.now state r }
{
    'states: for other in states {
        if is_below(pairs, state, *other) {
            return true;
        }
    }
    false
}

/// Whether the states, in increasing order, have the state.
fn has(states: &[usize], state: usize) -> bool
    ensures { IsTrue result → Contains states.now state }
{
    match states.binary_search(&state) {
        Ok(_) => true,
        Err(_) => false,
    }
}

/// A bit for each remainder of a state, as in a filter (B. H. Bloom, 1970).
fn filter_of(states: &[usize]) -> [u64; WORDS] {
    let mut filter = [0; WORDS];
    'states: for state in states {
        filter[state / BITS % WORDS] |= 1 << (state % BITS);
    }
    filter
}

/// Whether the filter allows that its set has the state.
fn may_have(filter: &[u64], state: usize) -> bool {
    let word = state / BITS % WORDS;
    word < filter.len() && filter[word] >> (state % BITS) & 1 == 1
}
