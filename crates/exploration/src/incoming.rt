//! The edges of an automaton by the states that they lead to: those into one state are chained, each to the one before it, in one list
//! of all edges. It takes time and memory linear in the states and the edges.

ghost use Rattle.std.specs.Prelude.{IfOk, OnOk};
ghost use Rattle.exploration.specs.Incoming.{linked, AreChained, AreIncoming, AddsMoves};
ghost use Rattle.exploration.specs.private.Chains.{AddsEdges};

use std::alloc::{AllocError, Global};
use std::marker::Model;
use word_automata::Dfa;

/// The edges into states. The number of an edge is one more than its place in the list.
#[derive(Drop)]
pub struct Incoming {
    /// For each state the number of the last edge into it, 0 where there is none.
    last: Vec<usize>,
    /// For each edge its letter with the state that it leaves, and the number of the edge before it into the same state, 0 where there is
    /// none.
    edges: Vec<((u32, usize), usize)>,
}

impl Model for Incoming {
    ghost use Rattle.exploration.specs.Incoming.{Chains, linked, AreChained};

    ghost Value = { Chains };

    ghost view = { λ s. linked s.last.items s.edges.items };

    ghost invariant = { λ s. AreChained s.last.items s.edges.items };
}

impl Incoming {
    /// The edges of the automaton, in time and memory linear in its states and edges. `AllocError` where memory runs out.
    pub fn new(alloc: Global, automaton: &Dfa) -> Result<Incoming, AllocError>
        ensures { IfOk result (AreIncoming automaton.now) }
    {
        let mut last = vec![in alloc; 0usize; automaton.states()]?;
        let mut edges = Vec::with_capacity(alloc, automaton.edges())?;
        'states: for state in 0..automaton.states() {
            add_edges(&mut last, &mut edges, automaton.edges_from(state), state)?;
        }
        Ok(Incoming { last, edges })
    }

    /// Adds the letter and the source of each edge into the state to the list, in time linear in their number. `AllocError` where memory
    /// runs out.
    pub fn put_into(&self, state: usize, found: &mut Vec<(u32, usize)>) -> Result<(), AllocError>
        ensures { OnOk result (AddsMoves self.now state found.old.items found.new.items) }
    {
        follow(self.last.as_slice(), self.edges.as_slice(), state, found)
    }
}

/// Adds the edges that leave the state.
fn add_edges(
    last: &mut Vec<usize>,
    edges: &mut Vec<((u32, usize), usize)>,
    leaving: &[(u32, usize)],
    state: usize,
) -> Result<(), AllocError>
    requires { AreChained last.old.items edges.old.items }
    ensures { OnOk result (AddsEdges last.old.items edges.old.items last.new.items edges.new.items leaving.now state) }
{
    'edges: for &(letter, to) in leaving {
        if to < last.len() {
            edges.push(((letter, state), last[to]))?;
            last[to] = edges.len();
        }
    }
    Ok(())
}

/// Adds the letter and the source of each edge in the chain of the state.
fn follow(
    last: &[usize],
    edges: &[((u32, usize), usize)],
    state: usize,
    found: &mut Vec<(u32, usize)>,
) -> Result<(), AllocError>
    requires { AreChained last.now edges.now }
    ensures { OnOk result (AddsMoves (linked last.now edges.now) state found.old.items found.new.items) }
{
    let mut number = match last.get(state) {
        Some(last) => *last,
        None => 0,
    };
    'edges: while number > 0 {
        let (edge, before) = edges[number - 1];
        found.push(edge)?;
        number = before;
    }
    Ok(())
}
