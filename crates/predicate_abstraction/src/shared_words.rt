//! Which states of two automata share a word: from the pairs of accepting states backward over edges with the same letter. Each pair
//! is visited once, and the edges into its two states are merged by their letters: time linear in the pairs of edges with the same letter
//! and in the pairs of a state of one automaton and a state or an edge of the other.

ghost use Rattle.std.specs.Prelude.{◌≡◌, ◌<◌, ℕ, All, IfOk, OnOk, length, slice_index_or};
ghost use Rattle.std.specs.List.Sorted.{IsNonDecreasingBy};
ghost use Rattle.predicate_abstraction.specs.private.Pairs.{AddsPairs};
ghost use Rattle.predicate_abstraction.specs.private.SharedWords.{AreShared, SharesWords, IsAcceptingIn, IsPlaceOf, IsSource, AreSources, AreEdgesByTarget};

use crate::pair_set::PairSet;
use exploration::Incoming;
use std::alloc::{AllocError, Global};
use word_automata::Dfa;

/// The pairs of a state of `a` and one of `b` that share a word. The edges of both are listed by their targets.
pub fn shared_words(
    alloc: Global,
    a: &Dfa,
    into_a: &[Vec<(u32, usize)>],
    b: &Dfa,
    into_b: &[Vec<(u32, usize)>],
) -> Result<PairSet, AllocError>
    requires a { AreEdgesByTarget a.now into_a.now (length a.now.states) }
    requires b { AreEdgesByTarget b.now into_b.now (length b.now.states) }
    ensures { IfOk result (AreShared a.now b.now) }
{
    let mut shared = accepting_pairs(alloc, a, b)?;
    let mut next = 0;
    'pairs: while next < shared.len() {
        let (p, s) = shared.pair(next);
        let into_p: &Vec<(u32, usize)> = &into_a[p];
        let into_s: &Vec<(u32, usize)> = &into_b[s];
        add_predecessors(&mut shared, into_p, into_s)?;
        next += 1;
    }
    Ok(shared)
}

/// For each state a list of the edges into it, each its letter with its source, sorted by letters: a state is asked for them once for each
/// pair that has it.
pub fn edges_into(alloc: Global, a: &Dfa) -> Result<Vec<Vec<(u32, usize)>>, AllocError>
    ensures { IfOk result (λ lists. AreEdgesByTarget a.now lists.items (length a.now.states)) }
{
    let incoming = Incoming::new(alloc, a)?;
    let mut lists = Vec::with_capacity(alloc, a.states())?;
    'states: for state in 0..a.states() {
        let mut edges = Vec::new(alloc);
        incoming.put_into(state, &mut edges)?;
        edges.sort_unstable_by_key(|&(letter, _)| letter);
        lists.push(edges)?;
    }
    Ok(lists)
}

/// The pairs of accepting states.
fn accepting_pairs(alloc: Global, a: &Dfa, b: &Dfa) -> Result<PairSet, AllocError>
    ensures { IfOk result (λ shared. SharesWords a.now b.now shared 0) }
{
    let mut shared = PairSet::new(alloc, a.states(), b.states())?;
    'states: for state in 0..a.states() {
        if a.accepting(state) {
            add_accepting(&mut shared, b, state)?;
        }
    }
    Ok(shared)
}

/// Adds the pairs of the row and the accepting states.
fn add_accepting(shared: &mut PairSet, b: &Dfa, row: usize) -> Result<(), AllocError>
    requires row { row < shared.old.rows }
    requires columns { shared.old.columns ≡ length b.now.states }
    ensures { OnOk result (AddsPairs (IsAcceptingIn b.now row (length b.now.states)) shared.old shared.new) }
{
    'states: for column in 0..b.states() {
        if b.accepting(column) {
            shared.insert(row, column)?;
        }
    }
    Ok(())
}

/// Adds the pairs from which edges with the same letter lead to a pair of states. The edges into each of the two are told by their letters
/// and sources, and sorted by letters.
fn add_predecessors(
    shared: &mut PairSet,
    into_a: &[(u32, usize)],
    into_b: &[(u32, usize)],
) -> Result<(), AllocError>
    requires rows { All (λ move. move.1 < shared.old.rows) into_a.now }
    requires columns { All (λ move. move.1 < shared.old.columns) into_b.now }
    requires order_a { IsNonDecreasingBy (λ move. move.0) into_a.now }
    requires order_b { IsNonDecreasingBy (λ move. move.0) into_b.now }
    ensures { OnOk result (AddsPairs (AreSources into_a.now into_b.now) shared.old shared.new) }
{
    let mut from = 0;
    'edges: for &(letter, row) in into_a {
        from = place_of(into_b, from, letter);
        add_sources(shared, row, into_b, from, letter)?;
    }
    Ok(())
}

/// The place of the first edge with the letter or a greater one, which is looked for from a place on.
fn place_of(edges: &[(u32, usize)], from: usize, letter: u32) -> usize
    requires order { IsNonDecreasingBy (λ move. move.0) edges.now }
    requires less { (k : ℕ) → k < from → (slice_index_or edges.now k (0, 0)).0 < letter }
    ensures { IsPlaceOf letter edges.now result }
{
    let mut at = from;
    'edges: while at < edges.len() && edges[at].0 < letter {
        at += 1;
    }
    at
}

/// Adds the pairs of the row and the sources of the edges with the letter, whose place is known.
fn add_sources(
    shared: &mut PairSet,
    row: usize,
    edges: &[(u32, usize)],
    place: usize,
    letter: u32,
) -> Result<(), AllocError>
    requires row { row < shared.old.rows }
    requires columns { All (λ move. move.1 < shared.old.columns) edges.now }
    requires order { IsNonDecreasingBy (λ move. move.0) edges.now }
    requires place { IsPlaceOf letter edges.now place }
    ensures { OnOk result (AddsPairs (IsSource row letter edges.now) shared.old shared.new) }
{
    let mut at = place;
    'edges: while at < edges.len() && edges[at].0 == letter {
        shared.insert(row, edges[at].1)?;
        at += 1;
    }
    Ok(())
}
