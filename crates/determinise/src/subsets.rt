//! The system of the sets of states of a nondeterministic automaton: a letter leads from a set to the set of all its targets.
//! The successors of a set cost the edges that leave its states, up to sorting, and the pairs of targets that are compared.

ghost use Rattle.std.specs.Prelude.{◌≡◌, ◌<◌, IfOk, length, map};
ghost use Rattle.std.specs.Cmp.Lexicographic.{bytes_decides};
ghost use Rattle.word_automata.specs.Nondeterministic.{Accepts, AcceptsFromAny};
ghost use Rattle.word_automata.specs.StateSets.{AreStates};
ghost use Rattle.bit_subsets.specs.Subsets.{IsSubset};
ghost use Rattle.determinise.specs.private.Subsets.{ArePlainWhereFalse, LeadsTo};
ghost use Rattle.reduction.specs.Simulation.{AreIncluded};

use crate::maximal::maximal_states;
use crate::moves::{end_of_run, ordered_moves, targets};
use crate::state_set::StateSet;
use crate::subset::{accepts_some, only_plain_target, subset_from, subset_of};
use exploration::LanguageSystem;
use reduction::StatePairs;
use std::alloc::{AllocError, Global};
use word_automata::Nfa;

/// Room for a successor by each move, or for so many, is made at once.
const MOST_ROOM: usize = 64;

/// The sets of states of the automaton out of which no move without a letter leads.
#[derive(Drop)]
pub struct Subsets<'a> {
    pub automaton: &'a Nfa,
    pub silent: &'a [bool],
    pub pairs: &'a StatePairs,
    ghost count: { length silent.now ≡ length automaton.now.states },
    ghost plain: { ArePlainWhereFalse automaton.now silent.now },
    ghost included: { AreIncluded automaton.now pairs.now },
}

impl<'a> Subsets<'a> {
    /// The sets of states of this automaton, with a flag for each state, which is false only where no edge without a letter leaves it,
    /// and pairs of states of which the second one accepts what the first one does.
    pub fn new(automaton: &'a Nfa, silent: &'a [bool], pairs: &'a StatePairs) -> Subsets<'a>
        requires count { length silent.now ≡ length automaton.now.states }
        requires plain { ArePlainWhereFalse automaton.now silent.now }
        requires included { AreIncluded automaton.now pairs.now }
        ensures { result.automaton.now ≡ automaton.now }
    {
        Subsets {
            automaton,
            silent,
            pairs,
        }
    }

    /// The set to which the moves lead, without states that others of it simulate.
    fn set_after(&self, alloc: Global, moves: &[(u32, u32)]) -> Result<StateSet, AllocError>
        requires { AreStates self.now.automaton.now (map (λ move. move.1) moves.now) }
        ensures { IfOk result (LeadsTo self.now.automaton.now (map (λ move. move.1) moves.now)) }
    {
        if let Some(to) = only_plain_target(self.silent, moves) {
            return Ok(StateSet::from_state(alloc, to));
        }
        let targets = targets(alloc, moves)?;
        let kept = maximal_states(alloc, self.pairs, targets)?;
        subset_of(alloc, self.automaton, self.silent, kept)
    }
}

impl<'a> LanguageSystem for Subsets<'a> {
    type State = StateSet;

    ghost letter_count = { λ s. s.automaton.now.letters };

    ghost accepted = { λ s. Accepts s.automaton.now };

    ghost language = { λ s. AcceptsFromAny s.automaton.now };

    ghost is_state = { λ s. IsSubset s.automaton.now };

    fn letters(&self) -> u32 {
        self.automaton.letters()
    }

    fn start(&self, alloc: Global) -> Result<Option<StateSet>, AllocError> {
        let starts = self.automaton.starts();
        if starts.is_empty() {
            return Ok(None);
        }
        Ok(Some(subset_from(alloc, self.automaton, self.silent, starts)?))
    }

    fn is_accepting(&self, state: &StateSet) -> bool {
        accepts_some(self.automaton, state.as_slice())
    }

    fn successors(
        &self,
        alloc: Global,
        state: &StateSet,
    ) -> Result<Vec<(u32, StateSet)>, AllocError> {
        let moves = ordered_moves(alloc, self.automaton, state.as_slice())?;
        let mut successors = Vec::with_capacity(alloc, moves.len().min(MOST_ROOM))?;
        let mut at = 0;
        'runs: while at < moves.len() {
            let end = end_of_run(&moves, at);
            let subset = self.set_after(alloc, &moves[at..end])?;
            successors.push((moves[at].0, subset))?;
            at = end;
        }
        Ok(successors)
    }

    ghost equality = { λ x y h. (bytes_decides x y).0 h };
}
