//! The states above each state, as pairs by their first states, and sets of bits without the states that are below others of them, which
//! accept the same words (P. A. Abdulla and others, 2010). A set costs its words, and the pairs of those of its states that are below
//! some state.

ghost use Rattle.std.specs.Prelude.{◌≡◌, ℕ, Contains, IsTrue, IfOk};
ghost use Rattle.word_automata.specs.Nondeterministic.{NondeterministicAutomaton};
ghost use Rattle.bit_set.specs.Bits.{Has};
ghost use Rattle.reduction.specs.Reduction.{KeepsStarts};
ghost use Rattle.reduction.specs.Simulation.{AreIncluded};
ghost use Rattle.bit_subsets.specs.Subsets.{members};
ghost use Rattle.bit_subsets.specs.private.Pairs.{AreDifferentPairs};

use bit_set::BitSet;
use reduction::StatePairs;
use std::alloc::{AllocError, Global};

/// Pairs of different states, of which the second one is above the first, by their first states.
#[derive(Drop)]
pub struct StatesAbove {
    pairs: Vec<(usize, usize)>,
    /// For each state the place of its first pair, and at the end the number of all.
    firsts: Vec<usize>,
    /// The first states of the pairs.
    low: BitSet,
    ghost different: { (p q : ℕ) → Contains pairs.items (p, q) → p ≡ q → ⊥ },
}

impl StatesAbove {
    /// The pairs of different states, of so many states.
    pub fn new(alloc: Global, pairs: &StatePairs, count: usize) -> Result<StatesAbove, AllocError>
        ensures { IfOk result (λ above. (p q : ℕ) → Contains above.pairs.items (p, q) → Contains pairs.now (p, q)) }
    {
        let mut listed = different_pairs(alloc, pairs)?;
        listed.sort_unstable_by_key(|&(low, _)| low);
        let firsts = first_places(alloc, &listed, count)?;
        let low = first_states(alloc, &listed, count)?;
        Ok(StatesAbove {
            pairs: listed,
            firsts,
            low,
        })
    }

    /// The set without states that are below others of it. Of states below each other one stays.
    pub fn without_low(&self, alloc: Global, set: BitSet) -> Result<BitSet, AllocError>
        ensures { IfOk result (λ kept. (n : NondeterministicAutomaton) → AreIncluded n self.now.pairs.items
            → KeepsStarts n (members set) (members kept)) }
    {
        let low = set.common_numbers(alloc, &self.low)?;
        let mut kept = set;
        'states: for state in &low {
            if !self.is_below_one(&kept, *state) {
                continue;
            }
            kept.remove(*state);
        }
        Ok(kept)
    }

    /// Whether a state of the set is above the state.
    fn is_below_one(&self, set: &BitSet, state: usize) -> bool
        ensures { IsTrue result → (r : ℕ) × Has set.now r × Contains self.now.pairs.items (state, r) }
    {
        let (from, to) = self.places(state);
        'above: for at in from..to.min(self.pairs.len()) {
            let (low, high) = self.pairs[at];
            if low == state && set.has(high) {
                return true;
            }
        }
        false
    }

    /// Where the pairs of the state begin and end.
    fn places(&self, state: usize) -> (usize, usize) {
        match self.firsts.get(state..) {
            Some([from, to, ..]) => (*from, *to),
            _ => (0, 0),
        }
    }
}

/// The pairs of different states.
fn different_pairs(alloc: Global, pairs: &StatePairs) -> Result<Vec<(usize, usize)>, AllocError>
    ensures { IfOk result (λ listed. AreDifferentPairs pairs.now listed.items) }
{
    let mut listed = Vec::with_capacity(alloc, pairs.len())?;
    'pairs: for place in 0..pairs.len() {
        let (low, high) = pairs.pair(place);
        if low == high {
            continue;
        }
        listed.push((low, high))?;
    }
    Ok(listed)
}

/// For each of so many states the place of its first pair, and at the end the number of all.
fn first_places(
    alloc: Global,
    pairs: &[(usize, usize)],
    count: usize,
) -> Result<Vec<usize>, AllocError> {
    let mut firsts = Vec::new(alloc);
    let mut place = 0;
    'states: for state in 0..count {
        place = first_place(pairs, place, state);
        firsts.push(place)?;
    }
    firsts.push(pairs.len())?;
    Ok(firsts)
}

/// The place, from the given one on, of a pair of the state or of one after it.
fn first_place(pairs: &[(usize, usize)], from: usize, state: usize) -> usize {
    'pairs: for place in from..pairs.len() {
        if pairs[place].0 >= state {
            return place;
        }
    }
    pairs.len()
}

/// The first states of the pairs.
fn first_states(
    alloc: Global,
    pairs: &[(usize, usize)],
    count: usize,
) -> Result<BitSet, AllocError> {
    let mut low = BitSet::new(alloc, count)?;
    'pairs: for &(state, _) in pairs {
        low.insert(state);
    }
    Ok(low)
}
