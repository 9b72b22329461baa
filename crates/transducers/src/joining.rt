//! Transducers of several sections: the parts one after another, with a separator between neighbours, as in the concatenation of automata
//! (Thompson, 1968). They are joined from the last one back, so that states keep their numbers: time linear in the states and edges, and
//! in the edges between neighbours.

ghost use Rattle.std.specs.Prelude.{◌≡◌, ◌↔◌, ◌+◌, ◌^◌, ◌<◌, ◌++◌, ℕ, List, map, All, IfOk, OnOk, length};
ghost use Rattle.transducers.specs.Transducer.{Relates};
ghost use Rattle.transducers.specs.Combination.{copy_edge};
ghost use Rattle.transducers.specs.Joining.{AreJoined, RelatesJoined, letters_of, bridged_node};

use crate::combination::{push_starts, shifted_edges};
use crate::{Label, State, Transducer};
use std::alloc::{AllocError, Global};

/// The transducer that relates the words that are joined by `separator` from words that the parts relate, in the order of
/// the parts. There is at least one part, and all have the same number of letters, of which the separator is one. It has
/// the states and the edges of all parts, and from each accepting state of a part an edge to each start state of the next.
pub fn join_sections(
    alloc: Global,
    parts: &[Transducer],
    separator: u32,
) -> Result<Transducer, AllocError>
    requires letters { All (λ part. part.letters ≡ letters_of parts.now) parts.now }
    requires separator { separator < letters_of parts.now }
    ensures letters { IfOk result (λ t. t.letters ≡ letters_of parts.now) }
    ensures joined { IfOk result (λ t. (u w : List ℕ) → Relates t u w ↔ RelatesJoined separator parts.now u w) }
{
    let last = parts.len() - 1;
    let mut joined = parts[last].copy()?;
    'parts: for k in (0..last).rev() {
        joined = join_before(alloc, &parts[k], separator, joined)?;
    }
    Ok(joined)
}

/// The transducer that relates words of `part` and words of `rest` behind them, with a separator between. The states of
/// `rest` keep their numbers.
fn join_before(
    alloc: Global,
    part: &Transducer,
    separator: u32,
    rest: Transducer,
) -> Result<Transducer, AllocError>
    requires letters { part.now.letters ≡ rest.letters }
    requires separator { separator < rest.letters }
    ensures letters { IfOk result (λ t. t.letters ≡ rest.letters) }
    ensures joined { IfOk result (λ t. (u w : List ℕ) → Relates t u w ↔ AreJoined separator (Relates part.now) (Relates rest) u w) }
{
    let behind = rest.states();
    let Transducer {
        letters,
        starts: targets,
        mut states,
    } = rest;
    states.reserve(part.states())?;
    push_bridged_states(
        alloc,
        &mut states,
        part,
        behind,
        separator,
        targets.as_slice(),
    )?;
    let mut starts = Vec::new(alloc);
    push_starts(&mut starts, part, behind)?;
    Ok(Transducer {
        letters,
        starts,
        states,
    })
}

/// Appends the states of `t`, with their targets' numbers raised by `by`, and with edges to `targets` in place of acceptance.
fn push_bridged_states(
    alloc: Global,
    states: &mut Vec<State>,
    t: &Transducer,
    by: usize,
    separator: u32,
    targets: &[usize],
) -> Result<(), AllocError>
    requires { length t.now.states + by < 2 ^ 64 }
    ensures { OnOk result (states.new.items ≡ states.old.items ++ map (bridged_node by separator targets.now) t.now.states) }
{
    'states: for state in &t.states {
        states.push(bridged_state(alloc, state, by, separator, targets)?)?;
    }
    Ok(())
}

/// The state with its targets' numbers raised by `by`. Where `state` accepts, this one has an edge to each of the targets
/// instead, which copies the separator.
fn bridged_state(
    alloc: Global,
    state: &State,
    by: usize,
    separator: u32,
    targets: &[usize],
) -> Result<State, AllocError>
    requires { All (λ edge. edge.1 + by < 2 ^ 64) state.now.edges }
    ensures { IfOk result (λ bridged. bridged ≡ bridged_node by separator targets.now state.now) }
{
    let mut edges = shifted_edges(alloc, state.edges.as_slice(), by)?;
    if state.accepting {
        push_bridges(&mut edges, separator, targets)?;
    }
    Ok(State {
        accepting: false,
        edges,
    })
}

/// Appends an edge to each of the targets, which reads the separator and writes it again.
fn push_bridges(
    edges: &mut Vec<(Label, usize)>,
    separator: u32,
    targets: &[usize],
) -> Result<(), AllocError>
    ensures { OnOk result (edges.new.items ≡ edges.old.items ++ map (λ to. copy_edge to separator) targets.now) }
{
    'targets: for target in targets {
        edges.push((Label::exchange(separator, separator), *target))?;
    }
    Ok(())
}
