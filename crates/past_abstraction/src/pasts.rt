//! The abstraction by words of bounded length that lead into states. The sets of states into which words lead come from those of words
//! that are one letter shorter, as in the subset construction (M. O. Rabin and D. Scott, 1959) from all states at once, and split the
//! classes one after the other. Where they are many, so are sets of the reversed automaton found from each single state.

ghost use Rattle.std.specs.Prelude.{◌≡◌, IsOk};
ghost use Rattle.abstraction.specs.Bounds.{up_to, next_bound, next_key};
ghost use Rattle.abstraction.specs.BoundLaws.{next_key-over};
ghost use Rattle.past_abstraction.specs.Pasts.{is_related};
ghost use Rattle.past_abstraction.specs.PastLaws.{related-equivalence, related-finer};

use crate::classes::classes_by_words;
use abstraction::{Abstraction, Refinable};
use minimise::Canon;
use std::alloc::{AllocError, Global};

/// An abstraction by words of bounded length: states are related where each word of at most so many letters leads into both or into
/// neither. A word leads into a state where some state, state 0 or another, has a path that reads the word and ends there.
#[derive(Clone, Copy)]
pub struct Pasts {
    /// The bound on the number of letters.
    pub bound: u64,
}

impl Abstraction for Pasts {
    ghost key = { λ f. up_to f.bound };

    ghost related = { is_related };

    fn classes(&self, alloc: Global, a: &Canon) -> Result<Vec<usize>, AllocError> {
        classes_by_words(alloc, a.as_dfa(), self.bound)
    }

    ghost equivalence = { related-equivalence };
}

impl Refinable for Pasts {
    ghost next = { next_key };

    ghost after = { λ f x. record { bound = next_bound f.bound } };

    /// Makes the bound one more, unless it is the greatest number of 64 bits. It takes no memory.
    fn refine(&mut self, _alloc: Global, _refuted: &Canon) -> Result<(), AllocError>
        ensures done { IsOk result }
        ensures bound { self.new.bound ≡ next_bound self.old.bound }
    {
        self.bound = self.bound.saturating_add(1);
        Ok(())
    }

    ghost finer = { related-finer };

    ghost stays_over = { next_key-over };
}
