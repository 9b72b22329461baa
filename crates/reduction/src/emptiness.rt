//! The states from which no word is accepted: all but those that a search finds backward from the accepting states, along the edges
//! listed by their targets. It takes time linear in the states and edges. What it found is then tested in one pass.

ghost use Rattle.std.specs.Prelude.{◌≡◌, ◌<◌, ℕ, true, false, Option, Contains, IsTrue, IfOk, length, slice_index_or};
ghost use Rattle.reduction.specs.private.Emptiness.{IsRejectingAt, AreRejecting};

use std::alloc::{AllocError, Global};
use word_automata::Nfa;

/// For each state a flag, which is true only where no word is accepted from the state. It is true of each such state.
pub fn dead_flags(alloc: Global, automaton: &Nfa) -> Result<Vec<bool>, AllocError>
    ensures count { IfOk result (λ flags. length flags.items ≡ length automaton.now.states) }
    ensures dead { IfOk result (λ flags. AreRejecting automaton.now flags.items) }
{
    let flags = unreaching(alloc, automaton)?;
    if are_rejecting(automaton, &flags) {
        return Ok(flags);
    }
    Ok(vec![in alloc; false; automaton.states()]?)
}

/// Whether one of the states has the flag.
pub fn is_flagged(flags: &[bool]) -> bool {
    flags.contains(&true)
}

/// The edges by their targets: for each state the place of one edge to it, and for each edge its source and the place of another edge
/// to the same state. A place past the edges ends a list.
#[derive(Drop)]
struct Sources {
    first: Vec<usize>,
    links: Vec<(usize, usize)>,
}

/// For each state a flag, which is false where the search back from the accepting states finds it.
fn unreaching(alloc: Global, automaton: &Nfa) -> Result<Vec<bool>, AllocError>
    ensures { IfOk result (λ flags. length flags.items ≡ length automaton.now.states) }
{
    let sources = sources_of(alloc, automaton)?;
    let mut flags = vec![in alloc; true; automaton.states()]?;
    let mut found = Vec::new(alloc);
    'accepting: for state in 0..automaton.states() {
        if automaton.accepting(state) {
            find(&mut flags, &mut found, state)?;
        }
    }
    'found: for _ in 0..automaton.states() {
        let Some(state) = found.pop() else {
            return Ok(flags);
        };
        find_sources(&mut flags, &mut found, &sources, state)?;
    }
    Ok(flags)
}

/// The edges by their targets.
fn sources_of(alloc: Global, automaton: &Nfa) -> Result<Sources, AllocError> {
    let mut first = vec![in alloc; usize::MAX; automaton.states()]?;
    let mut links = Vec::new(alloc);
    'states: for state in 0..automaton.states() {
        add_sources(&mut first, &mut links, automaton.edges_from(state), state)?;
    }
    Ok(Sources { first, links })
}

/// Adds the edges of the state to the lists of their targets.
fn add_sources(
    first: &mut Vec<usize>,
    links: &mut Vec<(usize, usize)>,
    edges: &[(Option<u32>, usize)],
    state: usize,
) -> Result<(), AllocError> {
    'edges: for &(_, to) in edges {
        if to < first.len() {
            let place = links.len();
            links.push((state, first[to]))?;
            first[to] = place;
        }
    }
    Ok(())
}

/// Finds the sources of the edges to the state.
fn find_sources(
    flags: &mut Vec<bool>,
    found: &mut Vec<usize>,
    sources: &Sources,
    state: usize,
) -> Result<(), AllocError>
    ensures { length flags.new.items ≡ length flags.old.items }
{
    if state >= sources.first.len() {
        return Ok(());
    }
    let mut place = sources.first[state];
    'links: for _ in 0..sources.links.len() {
        if place >= sources.links.len() {
            return Ok(());
        }
        let (source, next) = sources.links[place];
        find(flags, found, source)?;
        place = next;
    }
    Ok(())
}

/// Finds the state, if it was not found before.
fn find(flags: &mut Vec<bool>, found: &mut Vec<usize>, state: usize) -> Result<(), AllocError>
    ensures { length flags.new.items ≡ length flags.old.items }
{
    if state < flags.len() && flags[state] {
        flags[state] = false;
        found.push(state)?;
    }
    Ok(())
}

/// Whether the flagged states do not accept, and lead to flagged states alone.
fn are_rejecting(automaton: &Nfa, flags: &[bool]) -> bool
    requires { length flags.now ≡ length automaton.now.states }
    ensures { IsTrue result → AreRejecting automaton.now flags.now }
{
    'states: for state in 0..automaton.states() {
        if !rejects_at(automaton, flags, state) {
            return false;
        }
    }
    true
}

/// Whether the state has no flag, or does not accept and leads to flagged states alone.
fn rejects_at(automaton: &Nfa, flags: &[bool], state: usize) -> bool
    requires count { length flags.now ≡ length automaton.now.states }
    requires state { state < length automaton.now.states }
    ensures { IsTrue result → IsRejectingAt automaton.now flags.now state }
{
    if !flags[state] {
        return true;
    }
    if automaton.accepting(state) {
        return false;
    }
    lead_to_flagged(flags, automaton.edges_from(state))
}

/// Whether the edges lead to states with the flag.
fn lead_to_flagged(flags: &[bool], edges: &[(Option<u32>, usize)]) -> bool
    ensures { IsTrue result → (label : Option ℕ) (q : ℕ) → Contains edges.now (label, q) → slice_index_or flags.now q false ≡ true }
{
    'edges: for (_, to) in edges {
        if *to >= flags.len() || !flags[*to] {
            return false;
        }
    }
    true
}
