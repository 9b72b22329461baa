//! The commands: the word that names each, and the form of the words after it, which are options and positional words. A command is found
//! by comparing the word with each name.

ghost use Rattle.std.specs.Prelude.{◌≡◌, find, map, option_map};
ghost use Rattle.std.specs.Str.{bytes_eq};
ghost use Rattle.command_words.specs.Parsing.{form_as_words};
ghost use Rattle.command_words.specs.Words.{form_named as form_named_so, usage_text};

/// A command by its name.
#[derive(Clone, Copy, Drop)]
pub(crate) enum Name {
    /// `check`
    Check,
    /// `back`
    Back,
    /// `deadlock`
    Deadlock,
    /// `past`
    Past,
    /// `checkall`
    CheckAll,
    /// `verify`
    Verify,
    /// `migrate`
    Migrate,
    /// `show`
    Show,
    /// `steps`
    Steps,
    /// `gen`
    Generate,
}

/// The form of a command: the command, the word that names it, the full names of its options with a value and of those without, and the
/// names of its positional words in order.
pub(crate) type Form = (
    Name,
    &'static str,
    &'static [&'static str],
    &'static [&'static str],
    &'static [&'static str],
);

/// The form of each command.
const FORMS: [Form; 10] = [
    (
        Name::Check,
        "check",
        &["method", "start", "bound", "budget", "workers"],
        &["report"],
        &["FILE"],
    ),
    (Name::Verify, "verify", &[], &[], &["FILE", "CERT"]),
    (Name::Show, "show", &[], &[], &["FILE"]),
    (Name::Steps, "steps", &[], &[], &["FILE", "CONFIGURATION"]),
    (Name::Generate, "gen", &["workers"], &[], &["N"]),
    (Name::Migrate, "migrate", &[], &[], &["FILE", "CERT"]),
    (Name::Back, "back", &["budget", "workers"], &[], &["FILE"]),
    (
        Name::Deadlock,
        "deadlock",
        &["budget", "workers"],
        &[],
        &["FILE"],
    ),
    (
        Name::Past,
        "past",
        &["bound", "budget", "workers"],
        &[],
        &["FILE"],
    ),
    (
        Name::CheckAll,
        "checkall",
        &["budget", "workers"],
        &[],
        &["FILE", "PROPS"],
    ),
];

/// The commands with their words.
const USAGE: &str =
    "armc: usage: check FILE [--method predicates|length] [--start bad|none] [--bound N] [--budget N] [--workers N] [--report]; \
    verify FILE CERT; show FILE; steps FILE CONFIGURATION; gen N [--workers N]; \
    migrate FILE CERT; back FILE [--budget N] [--workers N]; deadlock FILE [--budget N] [--workers N]; \
    past FILE [--bound N] [--budget N] [--workers N]; \
    checkall FILE PROPS [--budget N] [--workers N]";

/// The commands with their words, as their forms have them.
pub fn usage() -> &'static str
    ensures { result.now ≡ usage_text }
{
    USAGE
}

// The first of the forms whose command the word names, if there is one.
fn form_among(forms: &[Form], word: &str) -> Option<Form>
    ensures { option_map form_as_words result ≡ find (λ form. bytes_eq form.word word.now) (map form_as_words forms.now) }
{
    forms.iter().find(|form| form.1 == word).map(|form| *form)
}

/// The form of the command that the word names, if there is one.
pub(crate) fn form_named(word: &str) -> Option<Form>
    ensures { option_map form_as_words result ≡ form_named_so word.now }
{
    form_among(&FORMS, word)
}
