//! The words that two automata have in common: the image of one language under the identity on the other (Rabin and Scott, 1959, for
//! products). It takes time linear in the automaton whose words are copied and in its edges at the pairs of states that are reached.

ghost use Rattle.std.specs.Prelude.{◌≡◌, ◌↔◌, ℕ, List, IfOk};
ghost use Rattle.word_automata.specs.Nondeterministic.{Accepts};
ghost use Rattle.boolean_operations.specs.CommonWords.{IsCommonWord};

use crate::images::image_automaton;
use std::alloc::{AllocError, Global};
use transducers::identity;
use word_automata::{Dfa, Nfa};

/// A nondeterministic automaton of the words that both accept: the image of `b` under the transducer that relates the words of `a` to
/// themselves. Its states are the pairs of a state of each that are reached. The time is linear in the states and edges of `a` and in
/// its edges at these pairs, up to the search for a letter among the edges of a state of `b`, on average.
pub fn common_automaton(alloc: Global, a: &Nfa, b: &Dfa) -> Result<Nfa, AllocError>
    requires { a.now.letters ≡ b.now.letters }
    ensures language { IfOk result (λ c. (w : List ℕ) → Accepts c w ↔ IsCommonWord a.now b.now w) }
    ensures letters { IfOk result (λ c. c.letters ≡ b.now.letters) }
{
    let copying = identity(alloc, a)?;
    image_automaton(alloc, &copying, b)
}
