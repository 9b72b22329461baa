//! The command that the matches of `clap` mean, by the command's name. Every searching command has its query, and the file and the limits
//! are read once for all of them. Each value is looked at once.

ghost use Rattle.std.specs.Prelude.{List, ℕ, ◌≡◌, false, codes, option_map};
ghost use Rattle.command_words.specs.declared.Query.TheVariants.{Check, Past};
ghost use Rattle.command_words.specs.declared.forms.Name.TheVariants as names;
ghost use Rattle.command_words.specs.Parsing.{Gives, GivesValues};
ghost use Rattle.command_words.specs.Words.{Binding, Command as CommandData, bound_given, command_given};
ghost use Rattle.command_words.specs.Words.{is_flag, searching_given, settings_given, two_of, value_of};

use crate::forms::Name;
use crate::values::{bound_in, generated_in, limits_in, settings_in, value_in, workers_in};
use crate::{Command, Query};
use clap::ArgMatches;

// The query of `check`.
fn check_query_in(matches: &ArgMatches<'_>) -> Option<Query>
    ensures { (bound : List Binding) → GivesValues bound matches.now → result ≡ option_map Check (settings_given bound) }
{
    let settings = settings_in(matches)?;
    Some(Query::Check(settings))
}

// The query of `past`.
fn past_query_in(matches: &ArgMatches<'_>) -> Option<Query>
    ensures { (bound : List Binding) → GivesValues bound matches.now → result ≡ option_map Past (bound_given bound) }
{
    let bound = bound_in(matches)?;
    Some(Query::Past {
        bound: u64::from(bound),
    })
}

// The searching command of this query, if there is one.
fn search_in<'a>(matches: &ArgMatches<'a>, query: Option<Query>) -> Option<Command<'a>>
    ensures { (bound : List Binding) → GivesValues bound matches.now → Gives result (searching_given bound query) }
{
    let file = value_in(matches, "FILE")?;
    let query = query?;
    let limits = limits_in(matches)?;
    Some(Command::Search {
        file,
        query,
        limits,
    })
}

// The value of FILE and that of another name, which are no options without a value, if there are both.
fn two_in<'a>(matches: &ArgMatches<'a>, other: &str) -> Option<(&'a str, &'a str)>
    ensures { (bound : List Binding) → GivesValues bound matches.now → is_flag other.now ≡ false
        → (command : List ℕ → List ℕ → CommandData) → option_map (λ words. command words.0.now words.1.now) result
        ≡ two_of command (value_of (codes "FILE") bound) (value_of other.now bound) }
{
    let file = value_in(matches, "FILE")?;
    let other = value_in(matches, other)?;
    Some((file, other))
}

// The command of `checkall`.
fn check_all_in<'a>(matches: &ArgMatches<'a>) -> Option<Command<'a>>
    ensures { (bound : List Binding) → GivesValues bound matches.now → Gives result (command_given names.CheckAll bound) }
{
    let limits = limits_in(matches)?;
    let (file, properties) = two_in(matches, "PROPS")?;
    Some(Command::CheckAll {
        file,
        properties,
        limits,
    })
}

// The command of `show`.
fn show_in<'a>(matches: &ArgMatches<'a>) -> Option<Command<'a>>
    ensures { (bound : List Binding) → GivesValues bound matches.now → Gives result (command_given names.Show bound) }
{
    let file = value_in(matches, "FILE")?;
    Some(Command::Show { file })
}

// The command of `gen`.
fn generate_in<'a>(matches: &ArgMatches<'a>) -> Option<Command<'a>>
    ensures { (bound : List Binding) → GivesValues bound matches.now → Gives result (command_given names.Generate bound) }
{
    let number = generated_in(matches)?;
    let workers = workers_in(matches)?;
    Some(Command::Generate { number, workers })
}

/// The command of this name that the matches mean, if there is one.
pub(crate) fn command_in<'a>(name: Name, matches: &ArgMatches<'a>) -> Option<Command<'a>>
    ensures { (bound : List Binding) → GivesValues bound matches.now → Gives result (command_given name bound) }
{
    match name {
        Name::Check => search_in(matches, check_query_in(matches)),
        Name::Back => search_in(matches, Some(Query::Back)),
        Name::Deadlock => search_in(matches, Some(Query::Deadlock)),
        Name::Past => search_in(matches, past_query_in(matches)),
        Name::CheckAll => check_all_in(matches),
        Name::Verify => two_in(matches, "CERT").map(|(file, certificate)| Command::Verify {
            file,
            certificate,
        }),
        Name::Migrate => two_in(matches, "CERT").map(|(file, certificate)| Command::Migrate {
            file,
            certificate,
        }),
        Name::Show => show_in(matches),
        Name::Steps => two_in(matches, "CONFIGURATION").map(|(file, configuration)| Command::Steps {
            file,
            configuration,
        }),
        Name::Generate => generate_in(matches),
    }
}
