//! The search for the least word that leads from a start to a goal of a graph, breadth first. All states that one word is the
//! least to reach make a group; groups are gone through in the order of their words, and the steps from the states of a group are
//! taken together, by increasing letters, so that the first group with a goal shows the least word. The search takes time linear in
//! the edges that are reached, up to sorting, on average, and stops there.
//!
//! The list `groups` has the group of each state that was found, in the order in which it was found. The list `steps` has for each
//! group but the first, whose word is empty, a group before it and a letter: its word is that group's and then the letter.

ghost use Rattle.std.specs.Prelude.{◌≡◌, ◌<◌, ◌≤◌, ◌+◌, ℕ, List, [], All, length, reverse, slice_get, Some, MatchOption, IfOk, OnOk};
ghost use Rattle.std.specs.List.Sorted.{IsPermutation};
ghost use Rattle.sequence.specs.WordOrder.{IsLeastWord};
ghost use Rattle.boolean_operations.specs.private.Search.{IsFound, IsIn, IsNotAfter, Spells, AreSteps, Reached, Done, BeginsAt, AreRising, AreStepsOf, IsGathered, AreInOrder, IsBounded, AreBefore, Extends, Joins, HasLastStep};

use crate::graph::Graph;
use exploration::FoundStates;
use std::alloc::{AllocError, Global};

/// The least word that leads from a start to a goal, or `None` where no word does.
pub fn least_word_to_goal<T: Graph>(
    alloc: Global,
    graph: &T,
) -> Result<Option<Vec<u32>>, AllocError>
    ensures { IfOk result (λ word. MatchOption word
        ((w : List ℕ) → IsFound (T.is_start graph.now) (T.edge graph.now) (T.goal graph.now) w → ⊥)
        (λ w. IsLeastWord (IsFound (T.is_start graph.now) (T.edge graph.now) (T.goal graph.now)) w.items)) }
{
    let mut found = FoundStates::new(alloc, graph.codes())?;
    let mut groups = Vec::new(alloc);
    let mut steps = Vec::new(alloc);
    search(alloc, graph, &mut found, &mut groups, &mut steps)
}

/// The least word that leads from a start to a goal, by a search that begins with nothing found.
fn search<T: Graph>(
    alloc: Global,
    graph: &T,
    found: &mut FoundStates<T::State>,
    groups: &mut Vec<usize>,
    steps: &mut Vec<(usize, u32)>,
) -> Result<Option<Vec<u32>>, AllocError>
    requires none { found.old.states.items ≡ [] }
    requires no_groups { groups.old.items ≡ [] }
    requires no_steps { steps.old.items ≡ [] }
    ensures { IfOk result (λ word. MatchOption word
        ((w : List ℕ) → IsFound (T.is_start graph.now) (T.edge graph.now) (T.goal graph.now) w → ⊥)
        (λ w. IsLeastWord (IsFound (T.is_start graph.now) (T.edge graph.now) (T.goal graph.now)) w.items)) }
{
    begin(alloc, graph, found, groups)?;
    let mut pending = Vec::new(alloc);
    let mut group = 0;
    let mut place = 0;
    'groups: while group <= steps.len() {
        pending.clear();
        let Some(end) = gather(graph, found, groups, place, group, &mut pending)? else {
            return Ok(Some(word_of(alloc, steps, group)?));
        };
        sort(&mut pending)?;
        expand(alloc, graph, found, groups, steps, group, &pending)?;
        place = end;
        group += 1;
    }
    Ok(None)
}

/// Finds the starts, and what edges without a letter lead to from them.
fn begin<T: Graph>(
    alloc: Global,
    graph: &T,
    found: &mut FoundStates<T::State>,
    groups: &mut Vec<usize>,
) -> Result<(), AllocError>
    requires none { found.old.states.items ≡ [] }
    requires no_groups { groups.old.items ≡ [] }
    ensures reached { OnOk result (Reached (T.is_state graph.now) (T.is_start graph.now) (T.edge graph.now)
        found.new.states.items groups.new.items [] (length found.new.states.items)) }
    ensures done { OnOk result (Done (T.is_start graph.now) (T.edge graph.now) (T.goal graph.now)
        found.new.states.items groups.new.items [] 0) }
{
    let starts = graph.starts(alloc)?;
    'starts: for &start in &starts {
        let closed = found.len();
        join(graph, found, groups, start, 0)?;
        close(alloc, graph, found, groups, &[], closed)?;
    }
    Ok(())
}

/// Puts the state into the group, if it is new.
fn join<T: Graph>(
    graph: &T,
    found: &mut FoundStates<T::State>,
    groups: &mut Vec<usize>,
    state: T::State,
    group: usize,
) -> Result<(), AllocError>
    ensures { OnOk result (Joins found.old.states.items found.new.states.items groups.old.items groups.new.items state group) }
{
    if found.look_up(graph.code(&state), &state)?.is_none() {
        found.push(state)?;
        groups.push(group)?;
    }
    Ok(())
}

/// Finds what edges without a letter lead to from the states of the last group that stand from the place on.
fn close<T: Graph>(
    alloc: Global,
    graph: &T,
    found: &mut FoundStates<T::State>,
    groups: &mut Vec<usize>,
    steps: &[(usize, u32)],
    from: usize,
) -> Result<(), AllocError>
    requires within { from ≤ length found.old.states.items }
    requires before { Reached (T.is_state graph.now) (T.is_start graph.now) (T.edge graph.now)
        found.old.states.items groups.old.items steps.now from }
    ensures reached { OnOk result (Reached (T.is_state graph.now) (T.is_start graph.now) (T.edge graph.now)
        found.new.states.items groups.new.items steps.now (length found.new.states.items)) }
    ensures extends { OnOk result (Extends found.old.states.items groups.old.items steps.now
        found.new.states.items groups.new.items steps.now (length steps.now)) }
{
    let mut place = from;
    'states: while place < found.len() {
        close_state(alloc, graph, found, groups, steps, place)?;
        place += 1;
    }
    Ok(())
}

/// Finds what edges without a letter lead to from the state at the place.
fn close_state<T: Graph>(
    alloc: Global,
    graph: &T,
    found: &mut FoundStates<T::State>,
    groups: &mut Vec<usize>,
    steps: &[(usize, u32)],
    place: usize,
) -> Result<(), AllocError>
    requires within { place < length found.old.states.items }
    requires before { Reached (T.is_state graph.now) (T.is_start graph.now) (T.edge graph.now)
        found.old.states.items groups.old.items steps.now place }
    ensures reached { OnOk result (Reached (T.is_state graph.now) (T.is_start graph.now) (T.edge graph.now)
        found.new.states.items groups.new.items steps.now (place + 1)) }
    ensures extends { OnOk result (Extends found.old.states.items groups.old.items steps.now
        found.new.states.items groups.new.items steps.now (length steps.now)) }
{
    let targets = graph.silent_targets(alloc, &found.states[place])?;
    'targets: for &target in &targets {
        join(graph, found, groups, target, steps.len())?;
    }
    Ok(())
}

/// Adds the steps of the states of the group, which begins at the place, and gives the place where the next group begins, or `None`
/// where one of these states is a goal.
fn gather<T: Graph>(
    graph: &T,
    found: &FoundStates<T::State>,
    groups: &[usize],
    from: usize,
    group: usize,
    pending: &mut Vec<(u32, T::State)>,
) -> Result<Option<usize>, AllocError>
    requires none { pending.old.items ≡ [] }
    requires count { length groups.now ≡ length found.now.states.items }
    requires states { (i : ℕ) (s : T.State) → slice_get found.now.states.items i ≡ Some s → T.is_state graph.now s }
    requires rising { AreRising groups.now }
    requires begins { BeginsAt groups.now from group }
    ensures { IfOk result (IsGathered (T.is_state graph.now) (T.edge graph.now) (T.goal graph.now)
        found.now.states.items groups.now group pending.new.items) }
{
    let mut place = from;
    'states: while place < groups.len() && groups[place] == group {
        let state = &found.states[place];
        if graph.is_goal(state) {
            return Ok(None);
        }
        graph.add_steps(state, pending)?;
        place += 1;
    }
    Ok(Some(place))
}

/// Sorts the steps by their letters.
fn sort<S: Drop>(pending: &mut Vec<(u32, S)>) -> Result<(), AllocError>
    ensures permutation { OnOk result (IsPermutation pending.old.items pending.new.items) }
    ensures in_order { OnOk result (AreInOrder pending.new.items) }
{
    pending.sort_by_key(|&(letter, _)| letter)?;
    Ok(())
}

/// Takes the steps of the states of the group.
fn expand<T: Graph>(
    alloc: Global,
    graph: &T,
    found: &mut FoundStates<T::State>,
    groups: &mut Vec<usize>,
    steps: &mut Vec<(usize, u32)>,
    from: usize,
    pending: &[(u32, T::State)],
) -> Result<(), AllocError>
    requires reached { Reached (T.is_state graph.now) (T.is_start graph.now) (T.edge graph.now)
        found.old.states.items groups.old.items steps.old.items (length found.old.states.items) }
    requires done { Done (T.is_start graph.now) (T.edge graph.now) (T.goal graph.now)
        found.old.states.items groups.old.items steps.old.items from }
    requires within { from ≤ length steps.old.items }
    requires before { AreBefore steps.old.items from }
    requires pending { AreStepsOf (T.is_state graph.now) (T.edge graph.now) (T.goal graph.now)
        found.old.states.items groups.old.items from pending.now }
    requires in_order { AreInOrder pending.now }
    ensures reached { OnOk result (Reached (T.is_state graph.now) (T.is_start graph.now) (T.edge graph.now)
        found.new.states.items groups.new.items steps.new.items (length found.new.states.items)) }
    ensures done { OnOk result (Done (T.is_start graph.now) (T.edge graph.now) (T.goal graph.now)
        found.new.states.items groups.new.items steps.new.items (from + 1)) }
    ensures before { OnOk result (AreBefore steps.new.items (from + 1)) }
    ensures extends { OnOk result (Extends found.old.states.items groups.old.items steps.old.items
        found.new.states.items groups.new.items steps.new.items (from + 1)) }
{
    let mut last = 0;
    'steps: for &(letter, state) in pending {
        last = step(
            alloc, graph, found, groups, steps, from, letter, state, last,
        )?;
    }
    Ok(())
}

/// Takes a step from a state of the group: finds the state that it leads to, if it is new, and what edges without a letter lead to
/// from there. It gives the place of the state, and looks at the place `last` first: neighbouring letters often lead to one state.
fn step<T: Graph>(
    alloc: Global,
    graph: &T,
    found: &mut FoundStates<T::State>,
    groups: &mut Vec<usize>,
    steps: &mut Vec<(usize, u32)>,
    from: usize,
    letter: u32,
    state: T::State,
    last: usize,
) -> Result<usize, AllocError>
    requires reached { Reached (T.is_state graph.now) (T.is_start graph.now) (T.edge graph.now)
        found.old.states.items groups.old.items steps.old.items (length found.old.states.items) }
    requires within { from ≤ length steps.old.items }
    requires bounded { IsBounded steps.old.items from letter }
    requires is_state { T.is_state graph.now state }
    requires source { (s : T.State) × IsIn found.old.states.items groups.old.items s from × T.edge graph.now s (Some letter) state }
    ensures reached { OnOk result (Reached (T.is_state graph.now) (T.is_start graph.now) (T.edge graph.now)
        found.new.states.items groups.new.items steps.new.items (length found.new.states.items)) }
    ensures bounded { OnOk result (IsBounded steps.new.items from letter) }
    ensures extends { OnOk result (Extends found.old.states.items groups.old.items steps.old.items
        found.new.states.items groups.new.items steps.new.items (from + 1)) }
    ensures taken { OnOk result ((h : ℕ) × IsIn found.new.states.items groups.new.items state h
        × IsNotAfter steps.new.items h from letter) }
{
    if found.holds(last, &state) {
        return Ok(last);
    }
    if let Some(place) = found.look_up(graph.code(&state), &state)? {
        return Ok(place);
    }
    let closed = found.len();
    found.push(state)?;
    add_step(steps, from, letter)?;
    groups.push(steps.len())?;
    close(alloc, graph, found, groups, steps, closed)?;
    Ok(closed)
}

/// Adds the step as the last, unless it is.
fn add_step(steps: &mut Vec<(usize, u32)>, from: usize, letter: u32) -> Result<(), AllocError>
    ensures { OnOk result (HasLastStep steps.old.items steps.new.items from letter) }
{
    match steps.last() {
        Some(&(last, with)) if last == from && with == letter => Ok(()),
        _ => {
            steps.push((from, letter))?;
            Ok(())
        }
    }
}

/// The word of the group: back along its steps.
fn word_of(alloc: Global, steps: &[(usize, u32)], group: usize) -> Result<Vec<u32>, AllocError>
    requires within { group ≤ length steps.now }
    requires are_steps { AreSteps steps.now }
    ensures { IfOk result (λ word. Spells steps.now (reverse word.items) group) }
{
    let mut word = Vec::new(alloc);
    let mut at = group;
    'back: while at > 0 {
        let (before, letter) = steps[at - 1];
        word.push(letter)?;
        at = before;
    }
    word.reverse();
    Ok(word)
}
