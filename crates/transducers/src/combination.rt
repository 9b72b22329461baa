//! Transducers made of others: their union, which has the states of both side by side, and their inverse, whose edges read what they wrote
//! and write what they read (Berstel, Transductions and Context-Free Languages, 1979). Each takes time linear in the states and edges.

ghost use Rattle.std.specs.Prelude.{◌≡◌, ◌↔◌, ◌+◌, ◌^◌, ◌<◌, ◌++◌, ◌⊎◌, ℕ, List, map, All, IfOk, OnOk, length};
ghost use Rattle.transducers.specs.Transducer.{Relates};
ghost use Rattle.transducers.specs.Combination.{shifted_edge, shifted_node, inverse_edge, inverse_node};

use crate::{Label, State, Transducer};
use std::alloc::{AllocError, Global};

/// The transducer that relates what `a` or `b` relates.
pub fn either(alloc: Global, a: &Transducer, b: &Transducer) -> Result<Transducer, AllocError>
    requires { a.now.letters ≡ b.now.letters }
    ensures letters { IfOk result (λ t. t.letters ≡ a.now.letters) }
    ensures union { IfOk result (λ t. (u w : List ℕ) → Relates t u w ↔ (Relates a.now u w ⊎ Relates b.now u w)) }
{
    let behind = a.states();
    let mut states = Vec::with_capacity(alloc, behind + b.states())?;
    push_states(alloc, &mut states, a, 0)?;
    push_states(alloc, &mut states, b, behind)?;
    let mut starts = Vec::new(alloc);
    push_starts(&mut starts, a, 0)?;
    push_starts(&mut starts, b, behind)?;
    Ok(Transducer {
        letters: a.letters,
        starts,
        states,
    })
}

/// The transducer that relates `w` to `u` where `a` relates `u` to `w`.
pub fn inverse(alloc: Global, a: &Transducer) -> Result<Transducer, AllocError>
    ensures letters { IfOk result (λ t. t.letters ≡ a.now.letters) }
    ensures inverse { IfOk result (λ t. (u w : List ℕ) → Relates t u w ↔ Relates a.now w u) }
{
    let starts = Vec::from_slice(alloc, a.starts.as_slice())?;
    let states = inverse_states(alloc, a)?;
    Ok(Transducer {
        letters: a.letters,
        starts,
        states,
    })
}

/// The states of `t` with their edges turned round.
fn inverse_states(alloc: Global, t: &Transducer) -> Result<Vec<State>, AllocError>
    ensures { IfOk result (λ states. states.items ≡ map inverse_node t.now.states) }
{
    let mut states = Vec::with_capacity(alloc, t.states.len())?;
    'states: for state in &t.states {
        states.push(inverse_state(alloc, state)?)?;
    }
    Ok(states)
}

/// Appends the start states of `t`, with their numbers raised by `by`.
pub(crate) fn push_starts(
    starts: &mut Vec<usize>,
    t: &Transducer,
    by: usize,
) -> Result<(), AllocError>
    requires { length t.now.states + by < 2 ^ 64 }
    ensures { OnOk result (starts.new.items ≡ starts.old.items ++ map (λ q. q + by) t.now.starts) }
{
    'starts: for start in &t.starts {
        starts.push(start + by)?;
    }
    Ok(())
}

/// Appends the states of `t`, with their targets' numbers raised by `by`.
fn push_states(
    alloc: Global,
    states: &mut Vec<State>,
    t: &Transducer,
    by: usize,
) -> Result<(), AllocError>
    requires { length t.now.states + by < 2 ^ 64 }
    ensures { OnOk result (states.new.items ≡ states.old.items ++ map (shifted_node by) t.now.states) }
{
    'states: for state in &t.states {
        states.push(shifted_state(alloc, state, by)?)?;
    }
    Ok(())
}

/// The state with its targets' numbers raised by `by`.
fn shifted_state(alloc: Global, state: &State, by: usize) -> Result<State, AllocError>
    requires { All (λ edge. edge.1 + by < 2 ^ 64) state.now.edges }
    ensures { IfOk result (λ shifted. shifted ≡ shifted_node by state.now) }
{
    let edges = shifted_edges(alloc, state.edges.as_slice(), by)?;
    Ok(State {
        accepting: state.accepting,
        edges,
    })
}

/// The state whose edges read what those of `state` write, and write what they read.
fn inverse_state(alloc: Global, state: &State) -> Result<State, AllocError>
    ensures { IfOk result (λ turned. turned ≡ inverse_node state.now) }
{
    let edges = inverse_edges(alloc, state.edges.as_slice())?;
    Ok(State {
        accepting: state.accepting,
        edges,
    })
}

/// The edges with their targets' numbers raised by `by`.
pub(crate) fn shifted_edges(
    alloc: Global,
    edges: &[(Label, usize)],
    by: usize,
) -> Result<Vec<(Label, usize)>, AllocError>
    requires { All (λ edge. edge.1 + by < 2 ^ 64) edges.now }
    ensures { IfOk result (λ shifted. shifted.items ≡ map (shifted_edge by) edges.now) }
{
    edges
        .iter()
        .map(|edge| (edge.0, edge.1 + by))
        .collect(alloc)
}

/// The edges turned round.
fn inverse_edges(alloc: Global, edges: &[(Label, usize)]) -> Result<Vec<(Label, usize)>, AllocError>
    ensures { IfOk result (λ turned. turned.items ≡ map inverse_edge edges.now) }
{
    edges
        .iter()
        .map(|edge| (turned(edge.0), edge.1))
        .collect(alloc)
}

/// The label that reads what `label` writes, and writes what it reads.
fn turned(label: Label) -> Label
    ensures { result ≡ record { read = label.write; write = label.read } }
{
    Label {
        read: label.write,
        write: label.read,
    }
}
