//! What the crates above ask of a system: its separator, the letters of a section, and what tables and sets of letters say.
//! Each takes time linear in what it is asked of, and no memory.

ghost use Rattle.std.specs.Prelude.{◌≡◌, ◌≤◌};
ghost use Rattle.protocol_syntax.specs.declared.limits.TheConstants.{MAX_LETTERS};
ghost use Rattle.protocol_model.specs.System.{IsValid, letter_count};
ghost use Rattle.protocol_model.specs.Patterns.{has_any_length};
ghost use Rattle.protocol_model.specs.Moves.{is_in, table_value};
ghost use Rattle.protocol_model.specs.Words.{separator_of};

use crate::system::{Section, System};
use protocol_syntax::Kind;

/// The letters of a section among those of an automaton or a transducer: the `count` letters from `offset` on.
#[derive(Clone, Copy)]
pub struct SectionLetters {
    /// The number of letters of the automaton or the transducer.
    pub letters: u32,
    /// The first letter of the section.
    pub offset: u32,
    /// The number of letters of the section.
    pub count: u32,
}

impl System {
    /// The number of letters of all sections, which is also the letter that separates them in words.
    pub fn separator(&self) -> u32
        ensures separator { result ≡ separator_of self.now }
        ensures limit { result ≤ MAX_LETTERS }
        ensures valid { IsValid self.now }
    {
        let mut total = 0;
        'sections: for section in self.sections.as_slice() {
            total += section.letters.len() as u32;
        }
        total
    }
}

impl Section {
    /// The number of letters of the section.
    pub fn letter_count(&self) -> u32
        requires { letter_count self.now ≤ MAX_LETTERS }
        ensures { result ≡ letter_count self.now }
    {
        self.letters.len() as u32
    }

    /// Whether the section has lists of any length; a cell has lists of one letter alone.
    pub fn has_any_length(&self) -> bool
        ensures { result ≡ has_any_length self.now.kind }
    {
        match self.kind {
            Kind::Cell => false,
            Kind::Array | Kind::Channel | Kind::Stack | Kind::LossyChannel => true,
        }
    }
}

/// Whether the letter is in the set.
pub fn is_in(letters: &[u32], letter: u32) -> bool
    ensures { result ≡ is_in letters.now letter }
{
    letters.iter().any(|x| *x == letter)
}

/// What the table makes of the letter; one that is not on its left side stays.
pub fn table_value(table: &[(u32, u32)], letter: u32) -> u32
    ensures { result ≡ table_value table.now letter }
{
    'entries: for entry in table {
        if entry.0 == letter {
            return entry.1;
        }
    }
    letter
}
