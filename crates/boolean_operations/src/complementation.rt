//! The complement of an automaton among the words over its letters: where an edge is missing it leads to one more state, and the states
//! that accepted do not (Rabin and Scott, 1959). It takes time and memory for each letter at each state.

ghost use Rattle.std.specs.Prelude.{◌≡◌, ◌&&◌, ℕ, not, List, Option, IfOk};
ghost use Rattle.word_automata.specs.Automaton.{accepts, IsValid};
ghost use Rattle.boolean_operations.specs.OptionalStates.{IsStateOrNone};
ghost use Rattle.boolean_operations.specs.Complements.{are_letters, complement_system};
ghost use Rattle.boolean_operations.specs.Equality.{same_options};

use crate::merged_edges::take;
use crate::optional_states::{accepts_at, edges_at, start_of};
use exploration::{TransitionSystem, explore};
use std::alloc::{AllocError, Global};
use word_automata::Dfa;

/// The complement of an automaton, whose states are those of the automaton and one more from which all words are accepted.
#[derive(Drop)]
struct ComplementSystem<'a> {
    automaton: &'a Dfa,
}

impl TransitionSystem for ComplementSystem<'_> {
    type State = Option<usize>;

    ghost system = { λ s. complement_system s.automaton.now };

    ghost is_state = { λ s state. IsValid s.automaton.now × IsStateOrNone s.automaton.now state };

    fn letters(&self) -> u32 {
        self.automaton.letters()
    }

    fn start(&self, _alloc: Global) -> Result<Option<Option<usize>>, AllocError> {
        Ok(Some(start_of(self.automaton)))
    }

    fn is_accepting(&self, state: &Option<usize>) -> bool {
        !accepts_at(self.automaton, *state)
    }

    fn successors(
        &self,
        alloc: Global,
        state: &Option<usize>,
    ) -> Result<Vec<(u32, Option<usize>)>, AllocError> {
        let edges = edges_at(self.automaton, *state);
        let mut successors = Vec::new(alloc);
        let mut place = 0;
        'letters: for letter in 0..self.automaton.letters() {
            let (target, next) = take(edges, place, letter);
            successors.push((letter, target))?;
            place = next;
        }
        Ok(successors)
    }

    ghost equality = { same_options };
}

/// An automaton that accepts the words over the letters of `a` that `a` refuses. It takes time and memory for each letter at each
/// state.
pub fn complement(alloc: Global, a: &Dfa) -> Result<Dfa, AllocError>
    ensures language { IfOk result (λ c. (w : List ℕ) → accepts c w ≡ (are_letters a.now.letters w && not (accepts a.now w))) }
    ensures letters { IfOk result (λ c. c.letters ≡ a.now.letters) }
    ensures valid { IfOk result IsValid }
{
    let complement = ComplementSystem { automaton: a };
    explore(alloc, &complement)
}
