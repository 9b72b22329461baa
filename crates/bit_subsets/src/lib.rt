//! The subset construction (M. O. Rabin and D. Scott, 1959) over sets of bits: the system of the sets of states of an automaton without
//! edges without a letter, a bit for each state. A letter leads from a set to the set of all its targets, without states that others of
//! it simulate. The successors of a set cost the edges that leave its states, and the words of a set for each letter. It is a crate of
//! its own, so that it is proved beside the crates below `determinise` and not after them.
#![tactic(auto)]

mod above;

ghost use Rattle.std.specs.Prelude.{◌≡◌, ◌+◌, ◌/◌, ◌↔◌, ℕ, List, Some, Contains, IsTrue, IfOk, OnOk, length};
ghost use Rattle.std.specs.Cmp.Lexicographic.{bytes_decides};
ghost use Rattle.word_automata.specs.Path.{is_accepting};
ghost use Rattle.word_automata.specs.Nondeterministic.{Accepts, AcceptsFromAny};
ghost use Rattle.word_automata.specs.StateSets.{AreStates, IsStep};
ghost use Rattle.bit_set.specs.Bits.{Has};
ghost use Rattle.bit_set.specs.SetLists.{Adds, HasAt, IsInTable};
ghost use Rattle.reduction.specs.Simulation.{AreIncluded};
ghost use Rattle.bit_subsets.specs.Subsets.{IsSubset, IsPlain, members};
ghost use Rattle.bit_subsets.specs.private.Successors.{AreTargets, AreSuccessorsBelow};

use crate::above::StatesAbove;
use bit_set::{BitSet, insert_with_room, sets_without_room};
use exploration::LanguageSystem;
use reduction::StatePairs;
use std::alloc::{AllocError, Global};
use word_automata::Nfa;

/// The sets of states of the automaton, which has no edges without a letter.
#[derive(Drop)]
pub struct BitSubsets<'a> {
    /// The automaton.
    pub automaton: &'a Nfa,
    above: StatesAbove,
    accepting: BitSet,
    /// No state, with room for all.
    empty: BitSet,
    ghost plain: { (p : ℕ) → IsPlain automaton.now p },
    ghost included: { AreIncluded automaton.now above.pairs.items },
    ghost none: { (q : ℕ) → Has empty q → ⊥ },
    ghost room: { length empty ≡ length automaton.now.states / 64 + 1 },
    ghost exact: { (q : ℕ) → Has accepting q ↔ IsTrue (is_accepting automaton.now.states q) },
}

impl<'a> BitSubsets<'a> {
    /// The sets of states of this automaton, with pairs of states of which the second one accepts what the first one does.
    pub fn new(
        alloc: Global,
        automaton: &'a Nfa,
        pairs: &StatePairs,
    ) -> Result<BitSubsets<'a>, AllocError>
        requires plain { (p : ℕ) → IsPlain automaton.now p }
        requires included { AreIncluded automaton.now pairs.now }
        ensures { IfOk result (λ sets. sets.automaton.now ≡ automaton.now) }
    {
        let above = StatesAbove::new(alloc, pairs, automaton.states())?;
        let accepting = accepting_states(alloc, automaton)?;
        let empty = BitSet::new(alloc, automaton.states())?;
        Ok(BitSubsets {
            automaton,
            above,
            accepting,
            empty,
        })
    }
}

/// For each letter the set of the states to which it leads from the set.
fn targets_of(alloc: Global, subsets: &BitSubsets, set: &BitSet) -> Result<Vec<BitSet>, AllocError>
    requires { IsSubset subsets.now.automaton.now (members set.now) }
    ensures { IfOk result (λ rows. AreTargets subsets.now.automaton.now set.now rows.items) }
{
    let states = set.numbers(alloc)?;
    let letters = subsets.automaton.letters() as usize;
    let mut rows = sets_without_room(alloc, letters)?;
    'states: for state in &states {
        add_targets(
            alloc,
            &mut rows,
            &subsets.empty,
            subsets.automaton.edges_from(*state),
        )?;
    }
    Ok(rows)
}

/// Adds the set to which the letter leads, unless it is empty, without states that others of it simulate.
fn add_successor(
    alloc: Global,
    subsets: &BitSubsets,
    successors: &mut Vec<(u32, BitSet)>,
    letter: u32,
    targets: BitSet,
) -> Result<(), AllocError>
    ensures { OnOk result ((set : List ℕ) → IsStep subsets.now.automaton.now letter (members set) (members targets)
        → AreSuccessorsBelow subsets.now.automaton.now set letter successors.old.items
        → AreSuccessorsBelow subsets.now.automaton.now set (letter + 1) successors.new.items) }
{
    if targets.is_empty() {
        return Ok(());
    }
    let kept = subsets.above.without_low(alloc, targets)?;
    successors.push((letter, kept))?;
    Ok(())
}

/// The states that accept.
fn accepting_states(alloc: Global, automaton: &Nfa) -> Result<BitSet, AllocError>
    ensures { IfOk result (λ set. (q : ℕ) → Has set q ↔ IsTrue (is_accepting automaton.now.states q)) }
{
    let mut accepting = BitSet::new(alloc, automaton.states())?;
    'states: for state in 0..automaton.states() {
        if !automaton.accepting(state) {
            continue;
        }
        accepting.insert(state);
    }
    Ok(accepting)
}

/// The set of these states.
fn set_of(alloc: Global, automaton: &Nfa, states: &[usize]) -> Result<BitSet, AllocError>
    requires { AreStates automaton.now states.now }
    ensures { IfOk result (λ set. (q : ℕ) → Has set q ↔ Contains states.now q) }
{
    let mut set = BitSet::new(alloc, automaton.states())?;
    'states: for state in states {
        set.insert(*state);
    }
    Ok(set)
}

/// Adds the targets of the edges to the sets of their letters, which get the room of the empty set with the first one.
fn add_targets(
    alloc: Global,
    rows: &mut Vec<BitSet>,
    empty: &BitSet,
    edges: &[(Option<u32>, usize)],
) -> Result<(), AllocError>
    requires { (k : ℕ) → Has empty.now k → ⊥ }
    ensures { OnOk result (Adds HasAt (IsInTable (length empty.now)) (λ a q. Contains edges.now (Some a, q))
        rows.old.items rows.new.items) }
{
    'edges: for &(letter, to) in edges {
        if let Some(letter) = letter {
            insert_with_room(alloc, rows, empty, letter as usize, to)?;
        }
    }
    Ok(())
}

impl<'a> LanguageSystem for BitSubsets<'a> {
    type State = BitSet;

    ghost letter_count = { λ s. s.automaton.now.letters };

    ghost accepted = { λ s. Accepts s.automaton.now };

    ghost language = { λ s set. AcceptsFromAny s.automaton.now (members set) };

    ghost is_state = { λ s set. IsSubset s.automaton.now (members set) };

    ghost equality = { λ x y h. (bytes_decides x y).0 h };

    fn letters(&self) -> u32 {
        self.automaton.letters()
    }

    fn start(&self, alloc: Global) -> Result<Option<BitSet>, AllocError> {
        let starts = self.automaton.starts();
        if starts.is_empty() {
            return Ok(None);
        }
        Ok(Some(set_of(alloc, self.automaton, starts)?))
    }

    fn is_accepting(&self, state: &BitSet) -> bool {
        state.meets(&self.accepting)
    }

    fn successors(&self, alloc: Global, state: &BitSet) -> Result<Vec<(u32, BitSet)>, AllocError> {
        let rows = targets_of(alloc, self, state)?;
        let letters = self.automaton.letters();
        let mut successors = Vec::with_capacity(alloc, letters as usize)?;
        let mut letter = 0;
        'rows: for row in rows {
            add_successor(alloc, self, &mut successors, letter, row)?;
            letter += 1;
        }
        Ok(successors)
    }
}
