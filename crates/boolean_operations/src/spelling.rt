//! The automaton of one word: a state after each of its letters.
//! It is built in the order of its states, in time and memory linear in the word.

ghost use Rattle.std.specs.Prelude.{◌≡◌, ◌<◌, ◌↔◌, ℕ, List, All, IsTrue, IfOk};
ghost use Rattle.word_automata.specs.Automaton.{accepts};

use std::alloc::{AllocError, Global};
use word_automata::{Dfa, DfaBuilder};

/// An automaton over so many letters that accepts this word alone.
pub fn single_word(alloc: Global, letters: u32, word: &[u32]) -> Result<Dfa, AllocError>
    requires { All (λ a. a < letters) word.now }
    ensures letters { IfOk result (λ m. m.letters ≡ letters) }
    ensures language { IfOk result (λ m. (w : List ℕ) → IsTrue (accepts m w) ↔ (w ≡ word.now)) }
{
    let mut builder = DfaBuilder::new(alloc, letters);
    builder.state(word.is_empty())?;
    'letters: for (read, letter) in word.iter().enumerate() {
        let after = builder.state(read + 1 == word.len())?;
        builder.add_edge(read, *letter, after)?;
    }
    Ok(builder.finish())
}
