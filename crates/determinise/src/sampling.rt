//! A sample of sets of states, each as the list of its states: at most 1,024 of them, each as far behind the one before it. It costs the
//! states of the sample. Nothing is promised of it.

use crate::state_set::StateSet;
use std::alloc::{AllocError, Global};

/// A sample has at most so many sets.
const SAMPLED: usize = 1_024;

/// A sample of the sets.
pub fn sample_of(alloc: Global, sets: &[StateSet]) -> Result<Vec<Vec<usize>>, AllocError> {
    let mut sample = Vec::with_capacity(alloc, SAMPLED)?;
    'sample: for number in 0..SAMPLED {
        let place = place_of(number, sets.len());
        if place >= sets.len() {
            continue;
        }
        let states = Vec::from_slice(alloc, sets[place].as_slice())?;
        sample.push(states)?;
    }
    Ok(sample)
}

/// The place of the set with this number in a sample of so many sets, or one past all.
fn place_of(number: usize, sets: usize) -> usize {
    number.saturating_mul(sets / SAMPLED + 1)
}
