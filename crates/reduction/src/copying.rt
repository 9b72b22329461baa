//! Copies of an automaton with start states and edges of one's own choice: the states first, then the start states, then the edges
//! state by state. Each takes time linear in what it adds.

ghost use Rattle.std.specs.Prelude.{◌≡◌, ◌<◌, All, IfOk, OnOk, length};
ghost use Rattle.word_automata.specs.Nondeterministic.{IsMoveInRange};
ghost use Rattle.reduction.specs.private.Copies.{states_alone, with_starts, AddsEdges};

use std::alloc::{AllocError, Global};
use word_automata::{Nfa, NfaBuilder};

/// The states of the automaton without their edges, none of them a start state.
pub fn states_alone(alloc: Global, automaton: &Nfa) -> Result<NfaBuilder, AllocError>
    ensures { IfOk result (λ built. built ≡ states_alone automaton.now) }
{
    let mut builder = NfaBuilder::new(alloc, automaton.letters());
    'states: for state in 0..automaton.states() {
        builder.state(automaton.accepting(state))?;
    }
    Ok(builder)
}

/// Adds the start states.
pub fn add_starts(builder: &mut NfaBuilder, starts: &[usize]) -> Result<(), AllocError>
    requires { All (λ q. q < length builder.old.states) starts.now }
    ensures { OnOk result (builder.new ≡ with_starts builder.old starts.now) }
{
    'starts: for start in starts {
        builder.start(*start)?;
    }
    Ok(())
}

/// Adds the edges to those of the state.
pub fn add_edges(
    builder: &mut NfaBuilder,
    state: usize,
    edges: &[(Option<u32>, usize)],
) -> Result<(), AllocError>
    requires { All (λ edge. IsMoveInRange builder.old state edge.0 edge.1) edges.now }
    ensures { OnOk result (AddsEdges state edges.now builder.old builder.new) }
{
    'edges: for &(letter, to) in edges {
        builder.edge(state, letter, to)?;
    }
    Ok(())
}
