//! The identity on the words of an automaton as a transducer: each edge writes the letter that it reads (Berstel, Transductions and
//! Context-Free Languages, 1979). It takes time linear in the states and edges.

ghost use Rattle.std.specs.Prelude.{◌≡◌, ◌↔◌, ℕ, List, map, IfOk};
ghost use Rattle.word_automata.specs.Nondeterministic.{Accepts};
ghost use Rattle.transducers.specs.Transducer.{Relates};
ghost use Rattle.transducers.specs.Combination.{identity_edge, identity_node};

use crate::{Label, State, Transducer};
use std::alloc::{AllocError, Global};
use word_automata::Nfa;

/// The transducer that relates each word that the automaton accepts to itself, and nothing else. Its states are the automaton's.
pub fn identity(alloc: Global, a: &Nfa) -> Result<Transducer, AllocError>
    ensures letters { IfOk result (λ t. t.letters ≡ a.now.letters) }
    ensures identity { IfOk result (λ t. (u w : List ℕ) → Relates t u w ↔ (Accepts a.now u × (u ≡ w))) }
{
    let starts = Vec::from_slice(alloc, a.starts())?;
    let states = identity_states(alloc, a)?;
    Ok(Transducer {
        letters: a.letters(),
        starts,
        states,
    })
}

/// The states of the automaton, whose edges write what they read.
fn identity_states(alloc: Global, a: &Nfa) -> Result<Vec<State>, AllocError>
    ensures { IfOk result (λ states. states.items ≡ map identity_node a.now.states) }
{
    let count = a.states();
    let mut states = Vec::with_capacity(alloc, count)?;
    'states: for state in 0..count {
        states.push(State {
            accepting: a.accepting(state),
            edges: identity_edges(alloc, a.edges_from(state))?,
        })?;
    }
    Ok(states)
}

/// The edges, which write what they read.
fn identity_edges(
    alloc: Global,
    edges: &[(Option<u32>, usize)],
) -> Result<Vec<(Label, usize)>, AllocError>
    ensures { IfOk result (λ written. written.items ≡ map identity_edge edges.now) }
{
    edges
        .iter()
        .map(|edge| (copied(edge.0), edge.1))
        .collect(alloc)
}

/// The label that reads the letter and writes it again, or neither reads nor writes.
fn copied(letter: Option<u32>) -> Label
    ensures { result ≡ record { read = letter; write = letter } }
{
    Label {
        read: letter,
        write: letter,
    }
}
