//! Pairs of a state of a transducer and a state of an automaton that reads what the transducer reads. The edges of both states are merged
//! where those of the transducer are sorted by the letters that they read, and a pair is found by its number in a table where there are
//! few: constant time for each edge of the transducer, on average.

ghost use Rattle.std.specs.Prelude.{◌≡◌, ◌<◌, Contains, IfOk, IfSome, OnOk, length, slice_get};
ghost use Rattle.word_automata.specs.Path.{edges_of};
ghost use Rattle.word_automata.specs.Automaton as automaton;
ghost use Rattle.transducers.specs.Transducer.{IsValid, IsEdge};
ghost use Rattle.image_preimage.specs.Gaps.{IsGap};
ghost use Rattle.image_preimage.specs.Pairs.{advance, IsReached, Numbers, Follows, Expands};

use crate::gap::Gap;
use exploration::FoundStates;
use std::alloc::AllocError;
use transducers::{Label, Transducer};
use word_automata::{Dfa, NfaBuilder};

/// A state of the transducer, on the left, and a state of the automaton.
#[derive(Clone, Copy, PartialEq, Eq)]
pub(crate) struct Pair {
    pub(crate) left: usize,
    pub(crate) right: usize,
}

/// A number above the codes of all pairs.
pub(crate) fn codes(t: &Transducer, a: &Dfa) -> usize {
    t.states().saturating_mul(a.states())
}

/// The code of the pair: no other pair has it.
fn code(a: &Dfa, pair: Pair) -> usize {
    pair.left.wrapping_mul(a.states()).wrapping_add(pair.right)
}

/// Adds the edges that leave the pair with the number `from`, and the pairs that they lead to where they are new.
pub(crate) fn expand(
    t: &Transducer,
    a: &Dfa,
    found: &mut FoundStates<Pair>,
    builder: &mut NfaBuilder,
    from: usize,
) -> Result<(), AllocError>
    requires valid { IsValid t.now }
    requires there { from < length found.old.states.items }
    requires reached { IsReached t.now a.now found.old.states.items builder.old }
    ensures { OnOk result (Expands t.now a.now found.old.states.items found.new.states.items builder.old builder.new from) }
{
    let pair = pair_at(found, from);
    let edges = a.edges_from(pair.right);
    let mut near = Near {
        number: from,
        gap: Gap::new(edges),
    };
    'edges: for edge in t.edges(pair.left) {
        if near.gap.has(edge.0.read) {
            continue;
        }
        follow(t, a, found, builder, from, pair, *edge, edges, &mut near)?;
    }
    Ok(())
}

/// What the last edge of a pair met: the number of the pair to which it led, and a gap between the edges of the right state.
#[derive(Drop)]
struct Near {
    number: usize,
    gap: Gap,
}

/// Adds the edge of the pair to which an edge of its left state leads, where its right state, whose edges are given, goes on with the
/// letter that is read. What is near the last edge is looked at first.
fn follow(
    t: &Transducer,
    a: &Dfa,
    found: &mut FoundStates<Pair>,
    builder: &mut NfaBuilder,
    from: usize,
    pair: Pair,
    edge: (Label, usize),
    edges: &[(u32, usize)],
    near: &mut Near,
) -> Result<(), AllocError>
    requires in_range { IsEdge t.now.letters (length t.now.states) edge }
    requires is_edge { Contains (edges_of t.now.states pair.left) edge }
    requires there { slice_get found.old.states.items from ≡ Some pair }
    requires reached { IsReached t.now a.now found.old.states.items builder.old }
    requires automaton { automaton.IsValid a.now }
    requires edges { edges.now ≡ edges_of a.now.states pair.right }
    requires gap { IsGap edges.now near.old.gap.low near.old.gap.high }
    ensures follows { OnOk result (Follows t.now a.now found.old.states.items found.new.states.items
        builder.old builder.new from pair edge) }
    ensures gap { IsGap edges.now near.new.gap.low near.new.gap.high }
{
    if let Some(right) = advance(a, pair.right, edge.0.read, edges, &mut near.gap) {
        let next = Pair {
            left: edge.1,
            right,
        };
        let to = number(t, a, found, builder, next, near.number)?;
        builder.edge(from, edge.0.write, to)?;
        near.number = to;
    }
    Ok(())
}

/// The number of the pair, which is a new one where it was not found before. The pair with the number `last` is looked at first:
/// neighbouring edges often lead to one pair.
pub(crate) fn number(
    t: &Transducer,
    a: &Dfa,
    found: &mut FoundStates<Pair>,
    builder: &mut NfaBuilder,
    pair: Pair,
    last: usize,
) -> Result<usize, AllocError>
    requires in_range { pair.right < length a.now.states }
    requires reached { IsReached t.now a.now found.old.states.items builder.old }
    ensures { IfOk result (Numbers t.now a.now found.old.states.items found.new.states.items builder.old builder.new pair) }
{
    if found.holds(last, &pair) {
        return Ok(last);
    }
    if let Some(number) = found.look_up(code(a, pair), &pair)? {
        return Ok(number);
    }
    add(t, a, found, builder, pair)
}

/// Adds the pair, and gives its number.
fn add(
    t: &Transducer,
    a: &Dfa,
    found: &mut FoundStates<Pair>,
    builder: &mut NfaBuilder,
    pair: Pair,
) -> Result<usize, AllocError>
    requires in_range { pair.right < length a.now.states }
    requires reached { IsReached t.now a.now found.old.states.items builder.old }
    ensures { IfOk result (Numbers t.now a.now found.old.states.items found.new.states.items builder.old builder.new pair) }
{
    let accepting = t.is_accepting(pair.left) && a.accepting(pair.right);
    found.push(pair)?;
    Ok(builder.state(accepting)?)
}

/// The state to which the letter leads, if it leads anywhere; without a letter the state itself.
fn advance(
    a: &Dfa,
    state: usize,
    letter: Option<u32>,
    edges: &[(u32, usize)],
    gap: &mut Gap,
) -> Option<usize>
    requires state { state < length a.now.states }
    requires automaton { automaton.IsValid a.now }
    requires edges { edges.now ≡ edges_of a.now.states state }
    requires gap { IsGap edges.now gap.old.low gap.old.high }
    ensures value { result ≡ advance a.now state letter }
    ensures in_range { IfSome result (λ to. to < length a.now.states) }
    ensures gap { IsGap edges.now gap.new.low gap.new.high }
{
    match letter {
        None => Some(state),
        Some(letter) => gap.target(edges, letter),
    }
}

/// The pair with this number.
fn pair_at(found: &FoundStates<Pair>, number: usize) -> Pair
    requires { number < length found.now.states.items }
    ensures { slice_get found.now.states.items number ≡ Some result }
{
    found.states[number]
}
