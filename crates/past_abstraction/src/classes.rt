//! The classes of states by the words that lead into them: by the sets of states into which words lead and, where these are many, by
//! the automaton of pasts, whose states are split in rounds by the words that it accepts (E. F. Moore, 1956). A round takes time linear in
//! its states and edges, on average.

ghost use Rattle.std.specs.Prelude.{◌≡◌, IfOk, length};
ghost use Rattle.abstraction.specs.Bounds.{up_to};
ghost use Rattle.abstraction.specs.Merging.{AreClasses};
ghost use Rattle.past_abstraction.specs.Pasts.{is_related};

use crate::past_automaton::past_automaton;
use crate::word_sets::classes_by_word_sets;
use future_abstraction::classes_by_futures;
use std::alloc::{AllocError, Global};
use word_automata::Dfa;

/// The classes of states into which the same words of at most so many letters lead.
pub fn classes_by_words(alloc: Global, a: &Dfa, bound: u64) -> Result<Vec<usize>, AllocError>
    ensures { IfOk result (λ classes. AreClasses (is_related (up_to bound) a.now) (length a.now.states) classes.items) }
{
    match classes_by_word_sets(alloc, a, bound)? {
        Some(classes) => Ok(classes),
        None => classes_by_automaton(alloc, a, bound),
    }
}

/// The same, by the automaton of pasts.
fn classes_by_automaton(alloc: Global, a: &Dfa, bound: u64) -> Result<Vec<usize>, AllocError>
    ensures { IfOk result (λ classes. AreClasses (is_related (up_to bound) a.now) (length a.now.states) classes.items) }
{
    let automaton = past_automaton(alloc, a, bound)?;
    let mut classes = classes_by_futures(alloc, &automaton, bound)?;
    classes.truncate(a.states());
    Ok(classes)
}
