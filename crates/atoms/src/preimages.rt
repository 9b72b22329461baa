//! The states from which each letter leads into a set of states. Sets are over the places of the states that are used: those that accept
//! or have an edge. A set costs the edges into its states.

ghost use Rattle.std.specs.Prelude.{◌≡◌, ◌<◌, false, Contains, IfOk, length};
ghost use Rattle.bit_set.specs.SetLists.{AddsNumbers, AddsForEach};
ghost use Rattle.atoms.specs.private.Places.{IsUsed, AreUsed, IsSource};

use crate::turned_edges::EdgesInto;
use bit_set::{BitSet, insert_at};
use std::alloc::{AllocError, Global};
use word_automata::Nfa;

/// The states that accept or have an edge, in order: the others accept nothing. Merged automata have many of these.
pub fn used_states(alloc: Global, automaton: &Nfa) -> Result<Vec<usize>, AllocError>
    ensures { IfOk result (λ used. AreUsed automaton.now used.items) }
{
    let mut used = Vec::new(alloc);
    'states: for state in 0..automaton.states() {
        if !is_used(automaton, state) {
            continue;
        }
        used.push(state)?;
    }
    Ok(used)
}

/// Whether the state accepts or has an edge.
fn is_used(automaton: &Nfa, state: usize) -> bool
    requires { state < length automaton.now.states }
    ensures { result ≡ false → IsUsed automaton.now state → ⊥ }
{
    if automaton.accepting(state) {
        return true;
    }
    !automaton.edges_from(state).is_empty()
}

/// Adds to the set of each letter the places from which the letter leads to one of the places. Tells how many edges were looked at.
pub fn add_preimages(
    sets: &mut Vec<BitSet>,
    into: &[EdgesInto],
    used: &[usize],
    places: &[usize],
) -> usize
    ensures { AddsForEach places.now (IsSource into.now used.now) sets.old.items sets.new.items }
{
    let mut looked = 0usize;
    'places: for place in places {
        let more = add_sources_of(sets, into, used, *place);
        looked = looked.saturating_add(more);
    }
    looked
}

/// Adds to the set of each letter the places from which the letter leads to the place. Tells how many edges were looked at.
fn add_sources_of(sets: &mut Vec<BitSet>, into: &[EdgesInto], used: &[usize], place: usize) -> usize
    ensures { AddsNumbers (IsSource into.now used.now place) sets.old.items sets.new.items }
{
    if place >= used.len() {
        return 0;
    }
    let state = used[place];
    if state >= into.len() {
        return 0;
    }
    let edges = into[state].as_slice();
    add_sources(sets, edges);
    edges.len()
}

/// Adds the sources of the edges to the sets of their letters.
fn add_sources(sets: &mut Vec<BitSet>, edges: &[(usize, usize)])
    ensures { AddsNumbers (λ a j. Contains edges.now (a, j)) sets.old.items sets.new.items }
{
    'edges: for &(letter, source) in edges {
        insert_at(sets, letter, source);
    }
}
