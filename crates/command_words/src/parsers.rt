//! The simple command of `clap` for the form of a command, and what its parse of the words gives. A parse is linear in the bytes of the
//! words, times the few options.

ghost use Rattle.std.specs.Prelude.{◌≡◌, ℕ, List, false, true, [], drop, fold, map, string_bytes, MatchOption, IfOk, None, Some};
ghost use Rattle.clap.specs.Faults.{fault_of, is_simple_and_free};
ghost use Rattle.clap.specs.Matches.{found_of};
ghost use Rattle.clap.specs.Simple.{app_of, matches_of as rows_of_app, with_rule};
ghost use Rattle.clap.specs.Walk.{rows_of, rule_of};
ghost use Rattle.command_words.specs.Parsing.{Fails, IsParsed, form_as_words, parser_of, rule_for};
ghost use Rattle.command_words.specs.Words.{bindings, form_named};

use crate::forms::Form;
use clap::error::ErrorKind;
use clap::{Arg, ArgAction, ArgMatches, Command as Parser};
use std::alloc::{AllocError, Global};

/// How a name of a form gets its value.
#[derive(Clone, Copy, Drop)]
enum Role {
    /// By an option with a value.
    Valued,
    /// By an option without a value.
    Flag,
    /// By a positional word.
    Positional,
}

// The argument of this role and name.
fn argument<'a>(alloc: Global, role: Role, name: &'a str) -> Arg<'a>
    ensures rule { rule_of result ≡ rule_for role name.entry.now }
    ensures own { result.global ≡ false }
{
    match role {
        Role::Valued => Arg::new(alloc, name).long(name).action(ArgAction::Set),
        Role::Flag => Arg::new(alloc, name).long(name).action(ArgAction::SetTrue),
        Role::Positional => Arg::new(alloc, name).action(ArgAction::Set),
    }
}

// The command of clap with these names of one role more.
fn with_names<'a>(
    alloc: Global,
    parser: Parser<'a>,
    role: Role,
    names: &'a [&'a str],
) -> Result<Parser<'a>, AllocError>
    ensures { IfOk result (λ p. app_of p ≡ fold with_rule (app_of parser.entry)
        (map (rule_for role) (map (λ name. name.now) names.entry.now))) }
{
    let mut parser = parser;
    for name in names {
        parser = parser.arg(argument(alloc, role, name))?;
    }
    Ok(parser)
}

// The command of clap for the form.
fn parser_for<'a>(alloc: Global, form: Form) -> Result<Parser<'a>, AllocError>
    ensures { IfOk result (λ p. app_of p ≡ parser_of (form_as_words form.entry)) }
{
    let (_, _, valued, flags, positionals) = form;
    let parser = Parser::new(alloc, "armc").disable_help_flag(true);
    let parser = with_names(alloc, parser, Role::Valued, valued)?;
    let parser = with_names(alloc, parser, Role::Flag, flags)?;
    with_names(alloc, parser, Role::Positional, positionals)
}

// The matches of the command of clap on the words, of which the first is its name, or none where it refuses them.
fn matches_on<'a>(
    parser: Parser<'a>,
    words: &'a [String],
) -> Result<Option<ArgMatches<'a>>, AllocError>
    requires { is_simple_and_free (app_of parser) ≡ true }
    ensures refused { IfOk result (λ found. MatchOption found (Fails (fault_of (app_of parser.entry) (map string_bytes words.entry.now)))
        (λ m. (fault_of (app_of parser.entry) (map string_bytes words.entry.now) ≡ [])
        × (rows_of (found_of m) ≡ rows_of_app (app_of parser.entry) (map string_bytes words.entry.now)))) }
{
    match parser.try_get_matches_from(words) {
        Ok(matches) => Ok(Some(matches)),
        Err(error) => match error.kind() {
            ErrorKind::OutOfMemory => Err(AllocError),
            _ => Ok(None),
        },
    }
}

/// What the words bind, of which the first names the command of this form; none where they do not have the form.
pub(crate) fn matches_of<'a>(
    alloc: Global,
    form: Form,
    words: &'a [String],
) -> Result<Option<ArgMatches<'a>>, AllocError>
    requires { (word : List ℕ) × (form_named word ≡ Some (form_as_words form)) }
    ensures { IfOk result (λ found. MatchOption found
        (bindings (form_as_words form.entry) (drop 1 (map string_bytes words.entry.now)) ≡ None)
        (IsParsed (form_as_words form.entry) (drop 1 (map string_bytes words.entry.now)))) }
{
    let parser = parser_for(alloc, form)?;
    matches_on(parser, words)
}
