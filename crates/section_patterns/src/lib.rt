//! The words of the initial, of the bad and of all configurations of a system, as automata.
//!
//! The words of each row are accepted by a nondeterministic automaton, which is built from the ends of the words to their fronts: each
//! state is added in front of a state that accepts what may follow. It is made canonical alone, and the rows are then united by halves of
//! their list, canonical after each union, so that many rows cost what their unions do.
#![tactic(auto)]

mod letters;
mod patterns;
mod rows;
mod sections;
mod states;

ghost use Rattle.std.specs.Prelude.{◌≡◌, ◌↔◌, ℕ, List, IfOk, IsTrue};
ghost use Rattle.word_automata.specs.Automaton.{accepts};
ghost use Rattle.minimise.specs.Canonical.{IsCanonical};
ghost use Rattle.protocol_model.specs.Words.{IsBadWord, IsInitialWord, automata_letters};
ghost use Rattle.section_patterns.specs.ConfigurationWords.{IsConfigurationWord};

use minimise::Canon;
use protocol_model::{Row, System};
use rows::{words_of_row, words_of_rows};
use sequence::Sequence;
use std::alloc::{AllocError, Global};

/// The canonical automaton of the words of the initial configurations.
pub fn initial_words(alloc: Global, system: &System) -> Result<Canon, AllocError>
    ensures language { IfOk result (λ c. (w : List ℕ) → IsTrue (accepts c w) ↔ IsInitialWord system.now w) }
    ensures letters { IfOk result (λ c. c.letters ≡ automata_letters system.now) }
    ensures canonical { IfOk result IsCanonical }
{
    Ok(words_of_rows(alloc, system, system.init.as_slice())?)
}

/// The canonical automaton of the words of the bad configurations.
pub fn bad_words(alloc: Global, system: &System) -> Result<Canon, AllocError>
    ensures language { IfOk result (λ c. (w : List ℕ) → IsTrue (accepts c w) ↔ IsBadWord system.now w) }
    ensures letters { IfOk result (λ c. c.letters ≡ automata_letters system.now) }
    ensures canonical { IfOk result IsCanonical }
{
    Ok(words_of_rows(alloc, system, system.bad.as_slice())?)
}

/// The canonical automaton of the words of all configurations, which are those that match a row that names no section.
pub fn configuration_language(alloc: Global, system: &System) -> Result<Canon, AllocError>
    ensures language { IfOk result (λ c. (w : List ℕ) → IsTrue (accepts c w) ↔ IsConfigurationWord system.now w) }
    ensures letters { IfOk result (λ c. c.letters ≡ automata_letters system.now) }
    ensures canonical { IfOk result IsCanonical }
{
    let free = Row {
        parts: Sequence::from_vec(Vec::new(alloc)),
    };
    Ok(words_of_row(alloc, system, &free)?)
}
