//! The images of a set of states: for each letter on an edge out of the set the states to which it leads. The targets of the edges are
//! put into a list for each letter, and each list is put in order: a short one is sorted, and the states of a long one are marked, a bit
//! for each state of the automaton. The images take time linear in the edges and the letters, up to sorting short lists.

ghost use Rattle.std.specs.Prelude.{◌≡◌, ◌↔◌, ◌⊎◌, ◌<◌, ◌≤◌, ◌*◌, [], ℕ, All, Contains, IfOk, OnOk, length};
ghost use Rattle.bit_set.specs.Bits.{Has};
ghost use Rattle.past_abstraction.specs.private.WordSets.{HasEmptyLists, PutsEdges, AreImages, HaveSameStates, HasNoMarks};

use bit_set::BitSet;
use determinise::StateSet;
use std::alloc::{AllocError, Global};
use word_automata::Dfa;

/// The states below the number.
pub fn all_states(alloc: Global, count: usize) -> Result<StateSet, AllocError>
    ensures { IfOk result (λ set. (p : ℕ) → Contains set p ↔ p < count) }
{
    let mut numbers = Vec::with_capacity(alloc, count)?;
    'states: for state in 0..count {
        numbers.push(state)?;
    }
    Ok(StateSet::from_vec(numbers))
}

/// A list without states for each letter.
pub fn empty_lists(alloc: Global, letters: u32) -> Result<Vec<Vec<usize>>, AllocError>
    ensures { IfOk result (λ lists. HasEmptyLists letters lists.items) }
{
    let mut lists = Vec::with_capacity(alloc, letters as usize)?;
    'letters: for _ in 0..letters {
        lists.push(Vec::new(alloc))?;
    }
    Ok(lists)
}

/// Puts the targets of edges out of states of the set into the lists of their letters.
pub fn put_images(a: &Dfa, set: &[usize], lists: &mut Vec<Vec<usize>>) -> Result<(), AllocError>
    requires states { All (λ state. state < length a.now.states) set.now }
    requires before { HasEmptyLists a.now.letters lists.old.items }
    ensures count { OnOk result (length lists.new.items ≡ a.now.letters) }
    ensures images { OnOk result (AreImages a.now set.now lists.new.items) }
{
    'states: for &state in set {
        put_edges(a.edges_from(state), lists)?;
    }
    Ok(())
}

/// Puts the states of the edges, each a letter and a state, into the lists of their letters.
pub fn put_edges(edges: &[(u32, usize)], lists: &mut Vec<Vec<usize>>) -> Result<(), AllocError>
    requires { All (λ edge. edge.0 < length lists.old.items) edges.now }
    ensures { OnOk result (PutsEdges edges.now lists.old.items lists.new.items) }
{
    'edges: for &(letter, to) in edges {
        let list: &mut Vec<usize> = &mut lists[letter as usize];
        list.push(to)?;
    }
    Ok(())
}

/// No mark, with room for those of the automaton's states.
pub fn no_marks(alloc: Global, a: &Dfa) -> Result<BitSet, AllocError>
    ensures { IfOk result (HasNoMarks (length a.now.states)) }
{
    let marks = BitSet::new(alloc, a.states())?;
    Ok(marks)
}

/// The states of the list in their order, each once, and the list without them. There is no mark before and after.
pub fn take_states(
    alloc: Global,
    a: &Dfa,
    list: &mut Vec<usize>,
    marks: &mut BitSet,
) -> Result<StateSet, AllocError>
    requires states { All (λ state. state < length a.now.states) list.old.items }
    requires marks { HasNoMarks (length a.now.states) marks.old }
    ensures same { IfOk result (HaveSameStates list.old.items) }
    ensures cleared { OnOk result (list.new.items ≡ []) }
    ensures marks { OnOk result (HasNoMarks (length a.now.states) marks.new) }
{
    if are_rising(list) {
        return Ok(take_all(alloc, list)?);
    }
    if is_long(a, list) {
        return take_marked(alloc, a, list, marks);
    }
    take_sorted(alloc, list)
}

/// The states of the list in their order, each once, by sorting, and the list without them.
pub fn take_sorted(alloc: Global, list: &mut Vec<usize>) -> Result<StateSet, AllocError>
    ensures same { IfOk result (HaveSameStates list.old.items) }
    ensures cleared { OnOk result (list.new.items ≡ []) }
{
    list.sort_unstable();
    list.dedup();
    Ok(take_all(alloc, list)?)
}

/// Whether to mark the states costs less than to sort the list. Nothing but time depends on it.
fn is_long(a: &Dfa, list: &[usize]) -> bool {
    list.len() > a.states() / 64
}

/// The states of the list as they stand there, and the list without them.
fn take_all(alloc: Global, list: &mut Vec<usize>) -> Result<StateSet, AllocError>
    ensures same { IfOk result (λ set. set ≡ list.old.items) }
    ensures cleared { OnOk result (list.new.items ≡ []) }
{
    let states = Vec::from_slice(alloc, list)?;
    list.clear();
    Ok(StateSet::from_vec(states))
}

/// The states of the list in their order, each once, by marks, and the list without them. There is no mark before and after.
fn take_marked(
    alloc: Global,
    a: &Dfa,
    list: &mut Vec<usize>,
    marks: &mut BitSet,
) -> Result<StateSet, AllocError>
    requires states { All (λ state. state < length a.now.states) list.old.items }
    requires marks { HasNoMarks (length a.now.states) marks.old }
    ensures same { IfOk result (HaveSameStates list.old.items) }
    ensures cleared { OnOk result (list.new.items ≡ []) }
    ensures marks { OnOk result (HasNoMarks (length a.now.states) marks.new) }
{
    mark(marks, list);
    list.clear();
    let states = marks.numbers(alloc)?;
    marks.clear();
    Ok(StateSet::from_vec(states))
}

/// Marks the states.
fn mark(marks: &mut BitSet, states: &[usize])
    requires { All (λ state. state < 64 * length marks.old) states.now }
    ensures marked { (q : ℕ) → Contains states.now q → Has marks.new q }
    ensures only { (q : ℕ) → Has marks.new q → Has marks.old q ⊎ Contains states.now q }
    ensures room { length marks.new ≡ length marks.old }
{
    'states: for &state in states {
        marks.insert(state);
    }
}

/// Whether the states are in their order, each once. Nothing but time depends on it.
fn are_rising(states: &[usize]) -> bool {
    let mut next = 0;
    'states: for &state in states {
        if state < next {
            return false;
        }
        next = state.saturating_add(1);
    }
    true
}
