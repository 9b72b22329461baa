//! Which words mean which command. One simple command of `clap`, made of the form of the command that the first word names (`forms`,
//! `parsers`), reads the words after it, and their values are read here (`values`, `commands`); the words that `clap` refuses are no
//! command. Linear in the bytes of the words.
#![tactic(auto)]

mod commands;
mod forms;
mod law;
mod parsers;
mod values;

ghost use Rattle.std.specs.Prelude.{◌≡◌, drop, map, string_bytes, MatchOption, IfSome, IfOk, None, Some};
ghost use Rattle.std.specs.List.{list_any};
ghost use Rattle.command_words.specs.Parsing.{Gives};
ghost use Rattle.command_words.specs.Words.{command_named, command_of as command_of_words, is_empty, IsInRange, said};

use crate::commands::command_in;
use crate::forms::form_named;
pub use crate::forms::usage;
pub use crate::law::plain_forms_mean;
use crate::parsers::matches_of;
use std::alloc::{AllocError, Global};

/// The budget of a search where the words give none.
pub const DEFAULT_BUDGET: u32 = 100_000;

/// How the states of an automaton are related in the abstraction.
#[derive(Clone, Copy, Drop)]
pub enum Method {
    /// By the predicate languages that both of their languages meet.
    Predicates,
    /// By the words of bounded length that both accept.
    Length,
}

/// The predicates of the first round.
#[derive(Clone, Copy, Drop)]
pub enum Start {
    /// The languages of all states of the automaton of the bad words.
    Bad,
    /// None.
    Nothing,
}

/// The settings of `check`.
#[derive(Clone, Copy, Drop)]
pub struct Settings {
    /// The abstraction.
    pub method: Method,
    /// The first predicates; they have no effect under `Method::Length`.
    pub start: Start,
    /// The first bound on the length of words, from 0 to 64; it has no effect under `Method::Predicates`.
    pub bound: u64,
    /// Whether the report of the search is printed.
    pub report: bool,
}

/// What a search may take.
#[derive(Clone, Copy, Drop)]
pub struct Limits {
    /// How many states are counted at most, from 1 to 1,000,000.
    pub budget: u64,
    /// How many threads make images, from 1 to 16.
    pub workers: u32,
}

/// What is searched for, a variant for each searching command.
#[derive(Clone, Copy, Drop)]
pub enum Query {
    /// A proof or a bad run.
    Check(Settings),
    /// The same, searched from the bad configurations backward.
    Back,
    /// A proof that no run leads to a deadlock, or a run to one.
    Deadlock,
    /// A proof or a bad run, with states merged by the words that lead into them.
    Past {
        /// The first bound on the length of words, from 0 to 64.
        bound: u64,
    },
}

/// What is asked for, with the names of its texts.
#[derive(Clone, Copy, Drop)]
pub enum Command<'a> {
    /// Judge the certificate for the protocol.
    Verify {
        /// The name of the protocol's text.
        file: &'a str,
        /// The name of the certificate's text.
        certificate: &'a str,
    },
    /// Turn the certificate for the protocol into one of the later version of its text.
    Migrate {
        /// The name of the protocol's text.
        file: &'a str,
        /// The name of the certificate's text.
        certificate: &'a str,
    },
    /// List the successors of a configuration.
    Steps {
        /// The name of the protocol's text.
        file: &'a str,
        /// The text of the configuration.
        configuration: &'a str,
    },
    /// Print the protocol in its canonical layout.
    Show {
        /// The name of the protocol's text.
        file: &'a str,
    },
    /// Search the protocol's system.
    Search {
        /// The name of the protocol's text.
        file: &'a str,
        /// What is searched for.
        query: Query,
        /// What the search may take.
        limits: Limits,
    },
    /// Search the protocol's system for each property of a text of properties, as `check` does by default.
    CheckAll {
        /// The name of the protocol's text.
        file: &'a str,
        /// The name of the text of properties.
        properties: &'a str,
        /// What each search may take, with the number of threads for all searches together.
        limits: Limits,
    },
    /// Make a protocol from a number, and search its system as `check` does by default.
    Generate {
        /// The number, from 1 to 255.
        number: u32,
        /// How many threads make images, from 1 to 16.
        workers: u32,
    },
}

// Whether some word is empty.
fn has_empty_word(words: &[String]) -> bool
    ensures { result ≡ list_any (λ word. is_empty (string_bytes word)) words.now }
{
    words.iter().any(|word| word.as_str().is_empty())
}

// The command of this name, which is the first of the words.
fn command_called<'a>(
    alloc: Global,
    name: &str,
    words: &'a [String],
) -> Result<Option<Command<'a>>, AllocError>
    ensures { IfOk result (λ found. Gives found (command_named name.now (drop 1 (map string_bytes words.entry.now)))) }
{
    let Some(form) = form_named(name) else {
        return Ok(None);
    };
    match matches_of(alloc, form, words)? {
        Some(matches) => Ok(command_in(form.0, &matches)),
        None => Ok(None),
    }
}

/// The command that the words mean, which are those after the program's name; none where they mean none. The first word names the command,
/// whose form says which options and words follow (`forms`). Options stand anywhere after it, each at most once, as `--x V` or `--x=V`, and
/// a word `--` ends them. No word is empty. A number is one to seven digits, and in its range.
///
/// Errors: `AllocError`, only where memory runs out.
pub fn command_of<'a>(alloc: Global, words: &'a [String]) -> Result<Option<Command<'a>>, AllocError>
    ensures command { IfOk result (λ found. MatchOption found (command_of_words (map string_bytes words.now) ≡ None)
        (λ command. command_of_words (map string_bytes words.now) ≡ Some (said command))) }
    ensures in_range { IfOk result (λ found. IfSome found (λ command. IsInRange (said command))) }
{
    if has_empty_word(words) {
        return Ok(None);
    }
    match words.first() {
        Some(name) => command_called(alloc, name.as_str(), words),
        None => Ok(None),
    }
}
