//! The edges of an automaton by their targets, each with the number of its letter and the place of its source among the states that are
//! used. They are turned round in time linear in the states and edges.

ghost use Rattle.std.specs.Prelude.{◌≡◌, ◌<◌, ◌++◌, ◌∷◌, [], IfOk, OnOk};
ghost use Rattle.word_automata.specs.StateSets.{AreStates};
ghost use Rattle.atoms.specs.private.Adding.{AddsEntries, AreNone};
ghost use Rattle.atoms.specs.private.Places.{IsEntryOf, AreTurned, label_number};

use std::alloc::{AllocError, Global};
use std::marker::Model;
use word_automata::Nfa;

/// The edges that lead into a state, each the number of its letter and the place of its source.
#[derive(Drop)]
pub struct EdgesInto {
    entries: Vec<(usize, usize)>,
}

impl Model for EdgesInto {
    ghost use Rattle.std.specs.Prelude.{List, ℕ};

    ghost Value = { List (ℕ × ℕ) };

    ghost view = { λ e. e.entries.items };
}

impl EdgesInto {
    /// No edge.
    fn new(alloc: Global) -> EdgesInto
        ensures { result ≡ [] }
    {
        EdgesInto {
            entries: Vec::new(alloc),
        }
    }

    /// The edges.
    pub fn as_slice(&self) -> &[(usize, usize)]
        ensures { result.now ≡ self.now }
    {
        self.entries.as_slice()
    }

    /// Adds an edge.
    fn push(&mut self, entry: (usize, usize)) -> Result<(), AllocError>
        ensures { OnOk result (self.new ≡ self.old ++ entry ∷ []) }
    {
        self.entries.push(entry)?;
        Ok(())
    }
}

/// For each state the edges into it from the states at these places.
pub fn edges_into(
    alloc: Global,
    automaton: &Nfa,
    used: &[usize],
) -> Result<Vec<EdgesInto>, AllocError>
    requires { AreStates automaton.now used.now }
    ensures { IfOk result (λ into. AreTurned automaton.now used.now into.items) }
{
    let mut into = no_edges(alloc, automaton.states())?;
    'places: for place in 0..used.len() {
        add_edges_from(&mut into, automaton.edges_from(used[place]), place)?;
    }
    Ok(into)
}

/// So many lists without edges.
fn no_edges(alloc: Global, count: usize) -> Result<Vec<EdgesInto>, AllocError>
    ensures { IfOk result (λ into. AreNone count into.items) }
{
    let mut into = Vec::with_capacity(alloc, count)?;
    'states: for _ in 0..count {
        let none = EdgesInto::new(alloc);
        into.push(none)?;
    }
    Ok(into)
}

/// Adds the edges, which leave the state at the place, to the lists of their targets.
fn add_edges_from(
    into: &mut Vec<EdgesInto>,
    edges: &[(Option<u32>, usize)],
    place: usize,
) -> Result<(), AllocError>
    ensures { OnOk result (AddsEntries (IsEntryOf edges.now place) into.old.items into.new.items) }
{
    'edges: for &(letter, to) in edges {
        push_at(into, to, (label_number(letter), place))?;
    }
    Ok(())
}

/// Adds the entry to the list of the state, if it is there.
fn push_at(into: &mut Vec<EdgesInto>, state: usize, entry: (usize, usize)) -> Result<(), AllocError>
    ensures { OnOk result (AddsEntries (λ p x. (p ≡ state) × (x ≡ entry)) into.old.items into.new.items) }
{
    if state >= into.len() {
        return Ok(());
    }
    let list: &mut EdgesInto = &mut into[state];
    list.push(entry)?;
    Ok(())
}

/// The number of a letter: one more than it, and 0 for none.
fn label_number(letter: Option<u32>) -> usize
    ensures { result ≡ label_number letter }
{
    match letter {
        Some(letter) => letter as usize + 1,
        None => 0,
    }
}
