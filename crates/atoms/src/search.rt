//! The search for the atoms of an automaton's states, which can be stopped at any amount of work and gone on with: subsets are taken
//! backward from the accepting states (J. A. Brzozowski, 1962) until none of the family is left. It costs what its family does.

ghost use Rattle.std.specs.Prelude.{◌≡◌, ◌↔◌, ℕ, IfOk, IfSome};
ghost use Rattle.word_automata.specs.StateSets.{AreStates};
ghost use Rattle.bit_set.specs.Bits.{Has};
ghost use Rattle.atoms.specs.Covers.{AreAtomsOf};
ghost use Rattle.atoms.specs.private.Places.{AcceptsAt};

use crate::family::Family;
use crate::preimages::used_states;
use crate::rows::{Atoms, atoms_of};
use crate::turned_edges::{EdgesInto, edges_into};
use bit_set::{BitSet, empty_sets};
use std::alloc::{AllocError, Global};
use std::marker::Model;
use word_automata::Nfa;

/// A search that is under way: the states that are used, the edges into each state, the sets that were found, and how many of these were
/// gone on from.
///
/// Contracts see the automaton alone.
#[derive(Drop)]
pub struct AtomSearch<'a> {
    alloc: Global,
    automaton: &'a Nfa,
    used: Vec<usize>,
    into: Vec<EdgesInto>,
    /// A set for each letter, empty.
    preimages: Vec<BitSet>,
    family: Family,
    next: usize,
}

impl<'a> Model for AtomSearch<'a> {
    ghost use Rattle.word_automata.specs.Nondeterministic.{NondeterministicAutomaton};
    ghost use Rattle.atoms.specs.private.Family.{IsUnderWay};

    ghost Value = { NondeterministicAutomaton };

    ghost view = { λ s. s.automaton.now };

    ghost invariant = { λ s. IsUnderWay s.automaton.now s.used.items s.into.items s.preimages.items s.family.sets.items
        s.family.seen.keys s.next };
}

impl<'a> AtomSearch<'a> {
    /// The search that has found the set of the accepting states. `AllocError` where memory runs out.
    pub fn begin(alloc: Global, automaton: &'a Nfa) -> Result<AtomSearch<'a>, AllocError>
        ensures { IfOk result (λ begun. begun ≡ automaton.now) }
    {
        let used = used_states(alloc, automaton)?;
        let into = edges_into(alloc, automaton, &used)?;
        let accepting = accepting_places(alloc, automaton, &used)?;
        let preimages = empty_sets(alloc, automaton.letters() as usize + 1, used.len())?;
        let family = Family::new(alloc, &accepting, used.len())?;
        Ok(AtomSearch {
            alloc,
            automaton,
            used,
            into,
            preimages,
            family,
            next: 0,
        })
    }

    /// The search further on: at its end, or where at least `most` edges, sets and words of these were looked at since it began.
    /// `AllocError` where memory runs out.
    pub fn advance(self, most: usize) -> Result<AtomSearch<'a>, AllocError>
        ensures { IfOk result (λ advanced. advanced ≡ self.entry) }
    {
        let (alloc, automaton) = (self.alloc, self.automaton);
        let (used, into) = (self.used, self.into);
        let (mut preimages, mut family, mut next) = (self.preimages, self.family, self.next);
        'sets: while next < family.sets.len() && family.work() < most {
            family.expand(alloc, &into, &used, &mut preimages, next)?;
            next += 1;
        }
        Ok(AtomSearch {
            alloc,
            automaton,
            used,
            into,
            preimages,
            family,
            next,
        })
    }

    /// The atoms of the automaton's states, up to unions, or `None` where the search is not at its end. `AllocError` where memory runs out.
    pub fn atoms(&self) -> Result<Option<Atoms>, AllocError>
        ensures { IfOk result (λ found. IfSome found (AreAtomsOf self.now)) }
    {
        if self.next < self.family.sets.len() {
            return Ok(None);
        }
        let _in_range = self.automaton.states();
        let sets = self.family.sets.as_slice();
        let atoms = atoms_of(self.alloc, self.automaton, &self.used, sets)?;
        Ok(Some(atoms))
    }
}

/// The places of accepting states.
fn accepting_places(alloc: Global, automaton: &Nfa, used: &[usize]) -> Result<BitSet, AllocError>
    requires { AreStates automaton.now used.now }
    ensures { IfOk result (λ set. (place : ℕ) → Has set place ↔ AcceptsAt automaton.now used.now place) }
{
    let mut set = BitSet::new(alloc, used.len())?;
    'places: for place in 0..used.len() {
        if !automaton.accepting(used[place]) {
            continue;
        }
        set.insert(place);
    }
    Ok(set)
}
