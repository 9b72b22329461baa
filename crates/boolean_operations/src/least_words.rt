//! The least word that an automaton accepts: the least one outside an automaton that accepts nothing. The walk ends at the first accepting
//! state, and takes time linear in the edges that are reached.

ghost use Rattle.std.specs.Prelude.{◌↔◌, MatchOption, IfOk, IsTrue};
ghost use Rattle.boolean_operations.specs.LeastWords.{AcceptsNothing, IsLeastAccepted};

use crate::inclusion::least_word_of_pairs;
use std::alloc::{AllocError, Global};
use word_automata::{Dfa, DfaBuilder};

/// Whether the automaton accepts no word. It takes time linear in the edges that are reached, and stops at the first accepting
/// state.
pub fn is_empty(alloc: Global, a: &Dfa) -> Result<bool, AllocError>
    ensures { IfOk result (λ empty. IsTrue empty ↔ AcceptsNothing a.now) }
{
    match least_word(alloc, a)? {
        Some(_) => Ok(false),
        None => Ok(true),
    }
}

/// The least word that the automaton accepts, the shortest and among these the first letter by letter, or `None` where it
/// accepts no word. It takes time linear in the edges that are reached, and stops at the first accepting state.
pub fn least_word(alloc: Global, a: &Dfa) -> Result<Option<Vec<u32>>, AllocError>
    ensures { IfOk result (λ word. MatchOption word (AcceptsNothing a.now) (λ w. IsLeastAccepted a.now w.items)) }
{
    let _valid = a.states();
    let nothing = DfaBuilder::new(alloc, a.letters()).finish();
    least_word_of_pairs(alloc, a, &nothing, &[], false)
}
