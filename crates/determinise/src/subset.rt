//! The sets of states that moves without a letter reach from some states, by a walk that visits each state once. Where no such move
//! leaves them, they stay as they are, at the cost of looking at each once.

ghost use Rattle.std.specs.Prelude.{◌≡◌, ◌↔◌, ◌<◌, [], ◌∷◌, ℕ, true, false, All, Contains, IsTrue, IsPermutation, IfOk, IfSome, OnOk, length, map, slice_index_or};
ghost use Rattle.word_automata.specs.Path.{edges_of, is_accepting};
ghost use Rattle.word_automata.specs.Nondeterministic.{IsInRange};
ghost use Rattle.word_automata.specs.StateSets.{AreStates, AddsState, AddsTargets, IsClosure};
ghost use Rattle.determinise.specs.private.Subsets.{IsSubsetFrom, ArePlainWhereFalse};
ghost use Rattle.std.specs.Prelude.{None};

use crate::state_set::StateSet;
use indexmap::IndexSet;
use std::alloc::{AllocError, Global};
use word_automata::Nfa;

/// The states that moves without a letter reach from the states: these states as they are, where no move without a letter leaves
/// them, and else in increasing order.
pub fn subset_of(
    alloc: Global,
    automaton: &Nfa,
    silent: &[bool],
    from: Vec<usize>,
) -> Result<StateSet, AllocError>
    requires states { AreStates automaton.now from.items }
    requires count { length silent.now ≡ length automaton.now.states }
    requires plain { ArePlainWhereFalse automaton.now silent.now }
    ensures { IfOk result (IsSubsetFrom automaton.now from.items) }
{
    if has_flag(silent, &from) {
        return subset_from(alloc, automaton, silent, &from);
    }
    Ok(StateSet::from_vec(from))
}

/// The one target of the moves, where there is one move and no move without a letter leaves its target.
pub fn only_plain_target(silent: &[bool], moves: &[(u32, u32)]) -> Option<usize>
    ensures target { IfSome result (λ to. map (λ move. move.1) moves.now ≡ to ∷ []) }
    ensures plain { IfSome result (λ to. slice_index_or silent.now to true ≡ false) }
{
    match moves {
        [only] => {
            let to = only.1 as usize;
            if to < silent.len() && !silent[to] {
                return Some(to);
            }
            None
        }
        _ => None,
    }
}

/// Whether one of the states has the flag.
fn has_flag(flags: &[bool], states: &[usize]) -> bool
    requires { All (λ q. q < length flags.now) states.now }
    ensures { result ≡ false → (q : ℕ) → Contains states.now q → slice_index_or flags.now q true ≡ false }
{
    'states: for state in states {
        if flags[*state] {
            return true;
        }
    }
    false
}

/// The states that moves without a letter reach from the states, in increasing order.
pub fn subset_from(
    alloc: Global,
    automaton: &Nfa,
    silent: &[bool],
    from: &[usize],
) -> Result<StateSet, AllocError>
    requires states { AreStates automaton.now from.now }
    requires count { length silent.now ≡ length automaton.now.states }
    requires plain { ArePlainWhereFalse automaton.now silent.now }
    ensures { IfOk result (IsSubsetFrom automaton.now from.now) }
{
    let mut set = set_of(alloc, from)?;
    close(&mut set, automaton, silent)?;
    in_order(alloc, set.as_slice())
}

/// The set of the states, in increasing order.
fn in_order(alloc: Global, states: &[usize]) -> Result<StateSet, AllocError>
    ensures { IfOk result (IsPermutation states.now) }
{
    let mut ordered = Vec::from_slice(alloc, states)?;
    ordered.sort_unstable();
    Ok(StateSet::from_vec(ordered))
}

/// Whether one of the states accepts.
pub fn accepts_some(automaton: &Nfa, states: &[usize]) -> bool
    requires { AreStates automaton.now states.now }
    ensures { IsTrue result ↔ ((q : ℕ) × Contains states.now q × IsTrue (is_accepting automaton.now.states q)) }
{
    'states: for state in states {
        if automaton.accepting(*state) {
            return true;
        }
    }
    false
}

/// Adds to the set the states that moves without a letter reach from it.
fn close(set: &mut IndexSet<usize>, automaton: &Nfa, silent: &[bool]) -> Result<(), AllocError>
    requires states { AreStates automaton.now set.old.keys }
    requires count { length silent.now ≡ length automaton.now.states }
    requires plain { ArePlainWhereFalse automaton.now silent.now }
    ensures states { OnOk result (AreStates automaton.now set.new.keys) }
    ensures closure { OnOk result (IsClosure automaton.now set.old.keys set.new.keys) }
{
    let mut next = 0;
    'states: while next < set.len() {
        let state = set.as_slice()[next];
        add_targets_of(set, automaton, silent, state)?;
        next += 1;
    }
    Ok(())
}

/// Adds the targets of the edges without a letter that leave the state.
fn add_targets_of(
    set: &mut IndexSet<usize>,
    automaton: &Nfa,
    silent: &[bool],
    state: usize,
) -> Result<(), AllocError>
    requires state { state < length automaton.now.states }
    requires count { length silent.now ≡ length automaton.now.states }
    requires plain { ArePlainWhereFalse automaton.now silent.now }
    ensures targets { OnOk result (AddsTargets (edges_of automaton.now.states state) None set.old.keys set.new.keys) }
    ensures in_range { OnOk result (IsInRange automaton.now) }
{
    let edges = automaton.edges_from(state);
    if silent[state] {
        add_silent_targets(set, edges)?;
    }
    Ok(())
}

/// The set of the states.
fn set_of(alloc: Global, states: &[usize]) -> Result<IndexSet<usize>, AllocError>
    ensures { IfOk result (λ set. (q : ℕ) → Contains set.keys q ↔ Contains states.now q) }
{
    let mut set = IndexSet::new(alloc);
    'states: for state in states {
        add(&mut set, *state)?;
    }
    Ok(set)
}

/// Adds the targets of the edges without a letter to the set.
fn add_silent_targets(
    set: &mut IndexSet<usize>,
    edges: &[(Option<u32>, usize)],
) -> Result<(), AllocError>
    ensures { OnOk result (AddsTargets edges.now None set.old.keys set.new.keys) }
{
    'edges: for &(letter, to) in edges {
        if letter.is_none() {
            add(set, to)?;
        }
    }
    Ok(())
}

/// Adds the state to the set, if it is not there.
fn add(set: &mut IndexSet<usize>, state: usize) -> Result<(), AllocError>
    ensures { OnOk result (AddsState set.old.keys set.new.keys state) }
{
    set.insert(state)?;
    Ok(())
}
