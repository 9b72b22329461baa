//! The abstraction by words of bounded length. Classes are split in rounds, each of which tells states apart by words of one letter
//! more, until a round changes nothing: each takes time linear in the states and edges, and there are at most as many as states.

ghost use Rattle.std.specs.Prelude.{◌≡◌, IfOk, IsOk, length};
ghost use Rattle.abstraction.specs.Bounds.{up_to, next_bound, next_key};
ghost use Rattle.abstraction.specs.BoundLaws.{next_key-over};
ghost use Rattle.abstraction.specs.Merging.{AreClasses};
ghost use Rattle.future_abstraction.specs.Futures.{is_related};
ghost use Rattle.future_abstraction.specs.FutureLaws.{related-equivalence, related-finer};

use crate::rounds::{split_again, split_first};
use abstraction::{Abstraction, Refinable, first_states};
use minimise::Canon;
use std::alloc::{AllocError, Global};
use word_automata::Dfa;

/// An abstraction by words of bounded length: states are related where each word of at most so many letters is accepted from both or
/// from neither.
#[derive(Clone, Copy)]
pub struct Futures {
    /// The bound on the number of letters.
    pub bound: u64,
}

impl Abstraction for Futures {
    ghost key = { λ f. up_to f.bound };

    ghost related = { is_related };

    fn classes(&self, alloc: Global, a: &Canon) -> Result<Vec<usize>, AllocError> {
        classes_by_futures(alloc, a.as_dfa(), self.bound)
    }

    ghost equivalence = { related-equivalence };
}

impl Refinable for Futures {
    ghost next = { next_key };

    ghost after = { λ f x. record { bound = next_bound f.bound } };

    /// Makes the bound one more, unless it is the greatest number of 64 bits. It takes no memory.
    fn refine(&mut self, _alloc: Global, _refuted: &Canon) -> Result<(), AllocError>
        ensures done { IsOk result }
        ensures bound { self.new.bound ≡ next_bound self.old.bound }
    {
        self.bound = self.bound.saturating_add(1);
        Ok(())
    }

    ghost finer = { related-finer };

    ghost stays_over = { next_key-over };
}

/// For each state of the automaton the first one from which the same words of at most so many letters are accepted. `AllocError` where
/// memory runs out.
pub fn classes_by_futures(
    alloc: Global,
    automaton: &Dfa,
    bound: u64,
) -> Result<Vec<usize>, AllocError>
    ensures { IfOk result (λ classes. AreClasses (is_related (up_to bound) automaton.now) (length automaton.now.states) classes.items) }
{
    let none = vec![in alloc; 0; automaton.states()]?;
    let mut older = vec![in alloc; 0; automaton.states()]?;
    let mut classes = split_first(alloc, automaton, &none)?;
    'rounds: for _ in 0..bound {
        let finer = split_again(alloc, automaton, &older, &classes)?;
        if finer == classes {
            return first_states(alloc, &classes);
        }
        older = classes;
        classes = finer;
    }
    first_states(alloc, &classes)
}
