//! The values of names in what `clap` found: numbers of few digits in a range, choices, the limits of a search, and the settings of
//! `check`. Each value is looked at once.

ghost use Rattle.std.specs.Prelude.{List, ◌≡◌, true, false, codes, option_map, option_and_then};
ghost use Rattle.std.specs.Char.{is_ascii_digit};
ghost use Rattle.std.specs.List.{list_all};
ghost use Rattle.command_words.specs.Parsing.{GivesValues};
ghost use Rattle.command_words.specs.Words.{Binding, is_flag, is_true};
ghost use Rattle.command_words.specs.Words.{bound_given, budget_given, limits_given, settings_given, workers_given, value_of, given};
ghost use Rattle.command_words.specs.Words.{is_number as is_number_word, chosen, methods, number_after, number_in, starts};
ghost use Rattle.command_words.specs.Words.{most_generated};

use crate::{DEFAULT_BUDGET, Limits, Method, Settings, Start};
use clap::ArgMatches;

/// The most digits of a number.
const MOST_DIGITS: usize = 7;

/// The greatest budget.
const MOST_BUDGET: u32 = 1_000_000;

/// The greatest bound.
const MOST_BOUND: u32 = 64;

/// The greatest number of workers.
const MOST_WORKERS: u32 = 16;

/// The greatest number of `gen`.
const MOST_GENERATED: u32 = 255;

// The value of the name, which is no option without a value.
pub(crate) fn value_in<'a>(matches: &ArgMatches<'a>, name: &str) -> Option<&'a str>
    ensures { (bound : List Binding) → GivesValues bound matches.now → is_flag name.now ≡ false
        → option_map (λ s. s.now) result ≡ value_of name.now bound }
{
    matches.get_str(name)
}

// Whether the value is there and is `true`.
fn is_given(word: Option<&str>) -> bool
    ensures { result ≡ is_true (option_map (λ s. s.now) word.entry) }
{
    match word {
        Some(word) => word == "true",
        None => false,
    }
}

// Whether the report is asked for.
fn report_in(matches: &ArgMatches<'_>) -> bool
    ensures { (bound : List Binding) → GivesValues bound matches.now → result ≡ is_true (value_of (codes "report") bound) }
{
    is_given(matches.get_str("report"))
}

// Whether the byte is a digit.
fn is_digit(byte: u8) -> bool
    ensures { result ≡ is_ascii_digit byte }
{
    byte.is_ascii_digit()
}

// Whether all bytes are digits.
fn are_digits(bytes: &[u8]) -> bool
    ensures { result ≡ list_all is_ascii_digit bytes.now }
{
    bytes.iter().all(|byte| is_digit(*byte))
}

// Whether the word is a number of one to seven digits.
fn is_number(word: &str) -> bool
    ensures { result ≡ is_number_word word.now }
{
    let bytes = word.as_bytes();
    if bytes.is_empty() || bytes.len() > MOST_DIGITS {
        return false;
    }
    are_digits(bytes)
}

// The number that the digits write.
fn number_of(word: &str) -> u32
    requires { is_number_word word.now ≡ true }
    ensures { result ≡ number_after 0 word.now }
{
    match word.parse::<u32>() {
        Ok(number) => number,
        Err(_) => unreachable!(),
    }
}

// The number that the word gives, from `least` to `most`.
fn number_between(word: &str, least: u32, most: u32) -> Option<u32>
    ensures { result ≡ number_in least most word.now }
{
    if !is_number(word) {
        return None;
    }
    let number = number_of(word);
    if number < least || number > most {
        return None;
    }
    Some(number)
}

// The number that the option gives, or its default.
fn number_or(word: Option<&str>, default: u32, least: u32, most: u32) -> Option<u32>
    ensures { result ≡ given default (number_in least most) (option_map (λ s. s.now) word.entry) }
{
    match word {
        Some(word) => number_between(word, least, most),
        None => Some(default),
    }
}

// The method that the option gives, or the default.
fn method_or(word: Option<&str>) -> Option<Method>
    ensures { result ≡ given Method.Predicates (chosen methods) (option_map (λ s. s.now) word.entry) }
{
    match word {
        None => Some(Method::Predicates),
        Some(word) => {
            if word == "predicates" {
                Some(Method::Predicates)
            } else if word == "length" {
                Some(Method::Length)
            } else {
                None
            }
        }
    }
}

// The first predicates that the option gives, or the default.
fn start_or(word: Option<&str>) -> Option<Start>
    ensures { result ≡ given Start.Bad (chosen starts) (option_map (λ s. s.now) word.entry) }
{
    match word {
        None => Some(Start::Bad),
        Some(word) => {
            if word == "bad" {
                Some(Start::Bad)
            } else if word == "none" {
                Some(Start::Nothing)
            } else {
                None
            }
        }
    }
}

// The bound that the matches give.
pub(crate) fn bound_in(matches: &ArgMatches<'_>) -> Option<u32>
    ensures { (bound : List Binding) → GivesValues bound matches.now → result ≡ bound_given bound }
{
    number_or(value_in(matches, "bound"), 0, 0, MOST_BOUND)
}

// The budget that the matches give.
pub(crate) fn budget_in(matches: &ArgMatches<'_>) -> Option<u32>
    ensures { (bound : List Binding) → GivesValues bound matches.now → result ≡ budget_given bound }
{
    number_or(value_in(matches, "budget"), DEFAULT_BUDGET, 1, MOST_BUDGET)
}

// The number of workers that the matches give.
pub(crate) fn workers_in(matches: &ArgMatches<'_>) -> Option<u32>
    ensures { (bound : List Binding) → GivesValues bound matches.now → result ≡ workers_given bound }
{
    number_or(value_in(matches, "workers"), 1, 1, MOST_WORKERS)
}

// The limits that the matches give.
pub(crate) fn limits_in(matches: &ArgMatches<'_>) -> Option<Limits>
    ensures { (bound : List Binding) → GivesValues bound matches.now → result ≡ limits_given bound }
{
    let budget = budget_in(matches)?;
    let workers = workers_in(matches)?;
    Some(Limits {
        budget: u64::from(budget),
        workers,
    })
}

// The settings that the matches of `check` give.
pub(crate) fn settings_in(matches: &ArgMatches<'_>) -> Option<Settings>
    ensures { (bound : List Binding) → GivesValues bound matches.now → result ≡ settings_given bound }
{
    let method = method_or(value_in(matches, "method"))?;
    let start = start_or(value_in(matches, "start"))?;
    let bound = bound_in(matches)?;
    let report = report_in(matches);
    Some(Settings {
        method,
        start,
        bound: u64::from(bound),
        report,
    })
}

// The number that the matches of `gen` give.
pub(crate) fn generated_in(matches: &ArgMatches<'_>) -> Option<u32>
    ensures { (bound : List Binding) → GivesValues bound matches.now
        → result ≡ option_and_then (number_in 1 most_generated) (value_of (codes "N") bound) }
{
    let word = value_in(matches, "N")?;
    number_between(word, 1, MOST_GENERATED)
}
