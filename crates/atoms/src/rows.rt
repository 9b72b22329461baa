//! The atoms by states: for each state the numbers of the sets of the family that hold it. A set of states has the numbers of its states
//! together, and sets with the same numbers accept the same words. Making the rows takes time linear in the members of the sets.

ghost use Rattle.std.specs.Prelude.{◌↔◌, ◌<◌, ℕ, List, All, Contains, IsTrue, IfOk, length};
ghost use Rattle.atoms.specs.Covers.{AreAtomsOf, IsSignature, IsWithin};
ghost use Rattle.bit_set.specs.SetLists.{AddsNumbers, AddsForEach};
ghost use Rattle.atoms.specs.private.Places.{AreUsed};
ghost use Rattle.atoms.specs.private.Family.{Covers};
ghost use Rattle.atoms.specs.private.Rows.{AreNarrow, IsNumberAt, AreEmptyRows, AreRowsOf};

use bit_set::{BitSet, empty_sets, insert_at};
use indexmap::IndexSet;
use std::alloc::{AllocError, Global};
use std::marker::Model;
use word_automata::Nfa;

/// For each state the numbers of the sets that hold it, and how many sets there are.
#[derive(Drop)]
pub struct Atoms {
    rows: Vec<BitSet>,
    count: usize,
}

impl Model for Atoms {
    ghost use Rattle.std.specs.Prelude.{List, ℕ};
    ghost use Rattle.atoms.specs.private.Rows.{AreNarrow};

    ghost Value = { List (List ℕ) };

    ghost view = { λ a. a.rows.items };

    ghost invariant = { λ a. AreNarrow a.count a.rows.items };
}

impl Atoms {
    /// The numbers that the states have together.
    pub fn signature(&self, alloc: Global, states: &[usize]) -> Result<BitSet, AllocError>
        requires { All (λ q. q < length self.now) states.now }
        ensures { IfOk result (IsSignature self.now states.now) }
    {
        let mut signature = BitSet::new(alloc, self.count)?;
        'states: for state in states {
            signature.add_all(&self.rows[*state]);
        }
        Ok(signature)
    }

    /// Whether the numbers are states.
    pub fn are_states(&self, states: &[usize]) -> bool
        ensures { IsTrue result → All (λ q. q < length self.now) states.now }
    {
        'states: for state in states {
            if *state >= self.rows.len() {
                return false;
            }
        }
        true
    }

    /// Whether the numbers are states that have together the numbers of the signature. It takes no memory.
    pub fn is_signature(&self, signature: &BitSet, states: &[usize]) -> bool
        ensures { IsTrue result → IsSignature self.now states.now signature.now }
    {
        self.are_states(states) && signature.is_union(&self.rows, states)
    }

    /// How many signatures these sets have, without those with a number that is no state. That it is right is no clause.
    pub fn count_signatures(
        &self,
        alloc: Global,
        sets: &[Vec<usize>],
    ) -> Result<usize, AllocError> {
        let mut signatures = IndexSet::new(alloc);
        'sets: for states in sets {
            if !self.are_states(states) {
                continue;
            }
            let signature = self.signature(alloc, states)?;
            signatures.insert(signature)?;
        }
        Ok(signatures.len())
    }

    /// Whether it is a state that has no number but those of the signature.
    pub fn is_within(&self, state: usize, signature: &BitSet) -> bool
        ensures { IsTrue result ↔ ((state < length self.now) × IsWithin self.now signature.now state) }
    {
        state < self.rows.len() && self.rows[state].is_within(signature)
    }

    /// The states that have no number but those of the signature.
    pub fn states_within(&self, alloc: Global, signature: &BitSet) -> Result<Vec<usize>, AllocError>
        ensures { IfOk result (λ states. (q : ℕ) → Contains states.items q
            ↔ ((q < length self.now) × IsWithin self.now signature.now q)) }
    {
        let mut states = Vec::new(alloc);
        'states: for state in 0..self.rows.len() {
            if !self.is_within(state, signature) {
                continue;
            }
            states.push(state)?;
        }
        Ok(states)
    }
}

/// The atoms of the automaton's states by sets of places of the states that are used, of which each atom is a union.
pub fn atoms_of(
    alloc: Global,
    automaton: &Nfa,
    used: &[usize],
    sets: &[BitSet],
) -> Result<Atoms, AllocError>
    requires used { AreUsed automaton.now used.now }
    requires covers { Covers automaton.now used.now sets.now }
    ensures { IfOk result (AreAtomsOf automaton.now) }
{
    let count = sets.len();
    let rows = rows_of(alloc, automaton.states(), used, sets)?;
    Ok(Atoms { rows, count })
}

/// For each of so many states the numbers of the sets that hold it.
fn rows_of(
    alloc: Global,
    states: usize,
    used: &[usize],
    sets: &[BitSet],
) -> Result<Vec<BitSet>, AllocError>
    requires { All (λ q. q < states) used.now }
    ensures narrow { IfOk result (λ rows. AreNarrow (length sets.now) rows.items) }
    ensures rows { IfOk result (λ rows. AreRowsOf used.now sets.now states (length sets.now) rows.items) }
{
    let mut rows = empty_rows(alloc, states, used, sets.len())?;
    'sets: for number in 0..sets.len() {
        let places = sets[number].numbers(alloc)?;
        add_number(&mut rows, used, &places, number);
    }
    Ok(rows)
}

/// A set for each state, with room for so many numbers where the state is used.
fn empty_rows(
    alloc: Global,
    states: usize,
    used: &[usize],
    count: usize,
) -> Result<Vec<BitSet>, AllocError>
    requires { All (λ q. q < states) used.now }
    ensures narrow { IfOk result (λ rows. AreNarrow count rows.items) }
    ensures rows { IfOk result (λ rows. AreEmptyRows used.now (length used.now) states count rows.items) }
{
    let mut rows = empty_sets(alloc, states, 0)?;
    'used: for state in used {
        let row = BitSet::new(alloc, count)?;
        rows[*state] = row;
    }
    Ok(rows)
}

/// Adds the number to the rows of the states at the places.
fn add_number(rows: &mut Vec<BitSet>, used: &[usize], places: &[usize], number: usize)
    ensures { AddsForEach places.now (IsNumberAt used.now number) rows.old.items rows.new.items }
{
    'places: for place in places {
        add_to_row(rows, used, *place, number);
    }
}

/// Adds the number to the row of the state at the place, if there is one.
fn add_to_row(rows: &mut Vec<BitSet>, used: &[usize], place: usize, number: usize)
    ensures { AddsNumbers (IsNumberAt used.now number place) rows.old.items rows.new.items }
{
    if place >= used.len() {
        return;
    }
    insert_at(rows, used[place], number);
}
