//! Numbers whose bits stand for the letters of short paths out of a state, as in a filter (B. H. Bloom, 1970): a state that simulates
//! another one has all bits of it. They take three passes over the edges. What is concluded from them is never for being right.

use crate::order::letter_number;
use std::alloc::{AllocError, Global};
use word_automata::Nfa;

/// Paths of at most so many edges are looked at.
const LONGEST: usize = 3;

/// For each state the bits of its paths.
pub fn trace_filters(alloc: Global, automaton: &Nfa) -> Result<Vec<u64>, AllocError> {
    let mut filters = vec![in alloc; 1; automaton.states()]?;
    'lengths: for _ in 0..LONGEST {
        filters = longer(alloc, automaton, &filters)?;
    }
    Ok(filters)
}

/// The bits of paths that have an edge more.
fn longer(alloc: Global, automaton: &Nfa, filters: &[u64]) -> Result<Vec<u64>, AllocError> {
    let mut next = Vec::with_capacity(alloc, automaton.states())?;
    'states: for state in 0..automaton.states() {
        let own = if automaton.accepting(state) { 3 } else { 1 };
        next.push(own | bits_after(filters, automaton.edges_from(state)))?;
    }
    Ok(next)
}

/// The bits of the targets of the edges, each turned by a number of its letter.
fn bits_after(filters: &[u64], edges: &[(Option<u32>, usize)]) -> u64 {
    let mut bits = 0;
    'edges: for &(letter, to) in edges {
        if to < filters.len() {
            bits |= filters[to].rotate_left((letter_number(letter) % 61) as u32 + 1);
        }
    }
    bits
}

/// Whether the filters allow that the state `high` simulates the state `low`.
pub fn may_simulate(filters: &[u64], low: usize, high: usize) -> bool {
    low < filters.len() && high < filters.len() && filters[low] | filters[high] == filters[high]
}
