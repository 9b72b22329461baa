//! A transition system as a system of languages: the language of a state is what the system accepts from it.
//! Each call hands on to the system, and costs what it costs there.

ghost use Rattle.std.specs.Prelude.{ℕ, List, IsTrue};
ghost use Rattle.exploration.specs.DeterministicSystem.{accepts_by, accepts_by_from};

use crate::language_system::LanguageSystem;
use crate::transition_system::TransitionSystem;
use std::alloc::{AllocError, Global};

/// The transition system, whose states stand for the languages that it accepts from them.
#[derive(Drop)]
pub struct Stepwise<'a, T> {
    pub system: &'a T,
}

impl<'a, T: TransitionSystem> LanguageSystem for Stepwise<'a, T> {
    type State = T::State;

    ghost letter_count = { λ s. (T.system s.system.now).letters };

    ghost accepted = { λ s w. IsTrue (accepts_by (T.system s.system.now) w) };

    ghost language = { λ s state w. IsTrue (accepts_by_from (T.system s.system.now) state w) };

    ghost is_state = { λ s. T.is_state s.system.now };

    fn letters(&self) -> u32 {
        self.system.letters()
    }

    fn start(&self, alloc: Global) -> Result<Option<T::State>, AllocError> {
        self.system.start(alloc)
    }

    fn is_accepting(&self, state: &T::State) -> bool {
        self.system.is_accepting(state)
    }

    fn successors(
        &self,
        alloc: Global,
        state: &T::State,
    ) -> Result<Vec<(u32, T::State)>, AllocError> {
        self.system.successors(alloc, state)
    }

    ghost equality = { T.TransitionSystem.equality };
}
