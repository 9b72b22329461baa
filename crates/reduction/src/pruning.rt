//! Automata without edges whose targets are simulated by the targets of other edges of the same state and letter (D. Bustan and
//! O. Grumberg, 2003: little brothers; L. Clemente and R. Mayr, 2013). It takes time linear in the states and edges, and in the pairs
//! of edges of a state with one letter.

ghost use Rattle.std.specs.Prelude.{◌≡◌, ◌↔◌, ◌+◌, ◌<◌, ℕ, List, IfOk, OnOk, length};
ghost use Rattle.word_automata.specs.Path.{edges_of};
ghost use Rattle.word_automata.specs.Nondeterministic.{Accepts};
ghost use Rattle.reduction.specs.private.Copies.{KeepsEdges, IsReduced};
ghost use Rattle.reduction.specs.Simulation.{IsSimulation, AreIncluded};
ghost use Rattle.reduction.specs.private.Pruning.{DropsMatched};

use crate::copying::{add_edges, add_starts, states_alone};
use crate::simulation_search::is_matched;
use crate::state_pairs::StatePairs;
use std::alloc::{AllocError, Global};
use word_automata::{Nfa, NfaBuilder};

/// The automaton without edges that other edges match, which accepts the same words.
pub fn pruned(alloc: Global, automaton: &Nfa, pairs: &StatePairs) -> Result<Nfa, AllocError>
    requires { IsSimulation automaton.now pairs.now }
    ensures language { IfOk result (λ pruned. (w : List ℕ) → Accepts pruned w ↔ Accepts automaton.now w) }
    ensures letters { IfOk result (λ pruned. pruned.letters ≡ automaton.now.letters) }
    ensures included { IfOk result (λ pruned. AreIncluded pruned pairs.now) }
{
    let mut builder = states_alone(alloc, automaton)?;
    add_starts(&mut builder, automaton.starts())?;
    'states: for state in 0..automaton.states() {
        add_unmatched(alloc, &mut builder, automaton, pairs, state)?;
    }
    Ok(builder.finish())
}

/// Adds the edges of the state without those that others match. Where no edge leads to a state below another one, all are added.
fn add_unmatched(
    alloc: Global,
    builder: &mut NfaBuilder,
    automaton: &Nfa,
    pairs: &StatePairs,
    state: usize,
) -> Result<(), AllocError>
    requires simulation { IsSimulation automaton.now pairs.now }
    requires state { state < length automaton.now.states }
    requires before { IsReduced automaton.now builder.old state }
    ensures { OnOk result (IsReduced automaton.now builder.new (state + 1)) }
{
    let edges = automaton.edges_from(state);
    if !leads_to_low(pairs, edges) {
        add_edges(builder, state, edges)?;
        return Ok(());
    }
    let kept = unmatched_edges(alloc, automaton, pairs, state)?;
    add_edges(builder, state, &kept)?;
    Ok(())
}

/// Whether an edge leads to a state below another one.
fn leads_to_low(pairs: &StatePairs, edges: &[(Option<u32>, usize)]) -> bool {
    'edges: for &(_, to) in edges {
        if pairs.is_low(to) {
            return true;
        }
    }
    false
}

/// The edges of the state without those that others match, in their order.
fn unmatched_edges(
    alloc: Global,
    automaton: &Nfa,
    pairs: &StatePairs,
    state: usize,
) -> Result<Vec<(Option<u32>, usize)>, AllocError>
    requires simulation { IsSimulation automaton.now pairs.now }
    requires state { state < length automaton.now.states }
    ensures { IfOk result (λ edges. KeepsEdges automaton.now (edges_of automaton.now.states state) edges.items) }
{
    let mut kept = unmatched_before(alloc, pairs, automaton.edges_from(state))?;
    kept.reverse();
    let mut edges = unmatched_before(alloc, pairs, &kept)?;
    edges.reverse();
    Ok(edges)
}

/// The edges without those that kept edges before them match.
fn unmatched_before(
    alloc: Global,
    pairs: &StatePairs,
    edges: &[(Option<u32>, usize)],
) -> Result<Vec<(Option<u32>, usize)>, AllocError>
    ensures { IfOk result (λ kept. DropsMatched pairs.now edges.now kept.items) }
{
    let mut kept = Vec::with_capacity(alloc, edges.len())?;
    let mut from = 0;
    'edges: for &(letter, to) in edges {
        from = start_of_letter(&kept, from, letter);
        if !is_matched(pairs, &kept, from, letter, to) {
            kept.push((letter, to))?;
        }
    }
    Ok(kept)
}

/// The place, if the letter stands there, and else the end.
fn start_of_letter(edges: &[(Option<u32>, usize)], from: usize, letter: Option<u32>) -> usize {
    if from < edges.len() && edges[from].0 == letter {
        from
    } else {
        edges.len()
    }
}
