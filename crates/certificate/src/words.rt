//! Words, and the names of letters.
//! Each byte is looked at once, and a letter is looked up by its name.

ghost use Rattle.std.specs.Prelude.{◌≡◌, length, position};
ghost use Rattle.std.specs.Str.{bytes_eq};
ghost use Rattle.lines.specs.Grammar.{just};
ghost use Rattle.certificate.specs.Words.{a_name, a_word, is_name_of_any_length, letter, letter_layout, letter_texts};

use crate::alphabet::{Alphabet, Places};
use lines::{Cut, Form, Just, Means, Meant, Names, Numbered};
use protocol_lexer::are_word_bytes;
use protocol_model::is_word;
use protocol_syntax::keyword_of;
use sequence::Text;
use std::alloc::{AllocError, Global};

/// A word, reserved or not.
#[derive(Drop)]
struct Word;

impl Form for Word {
    type Meaning = ();

    ghost grammar = { λ _. a_word };

    fn read(&self, _alloc: Global, bytes: &[u8]) -> Result<Option<()>, AllocError> {
        if is_word(bytes) {
            return Ok(Some(()));
        }
        Ok(None)
    }
}

/// A name of any length.
#[derive(Drop)]
pub struct Name;

impl Form for Name {
    type Meaning = ();

    ghost grammar = { λ _. a_name };

    fn read(&self, _alloc: Global, bytes: &[u8]) -> Result<Option<()>, AllocError> {
        if is_name_of_any_length(bytes) {
            return Ok(Some(()));
        }
        Ok(None)
    }
}

/// Whether the text is a name of any length.
fn is_name_of_any_length(text: &[u8]) -> bool
    ensures { result ≡ is_name_of_any_length text.now }
{
    !text.is_empty() && are_word_bytes(text) && keyword_of(text).is_none()
}

/// Two words mean nothing more.
#[derive(Drop)]
struct Nothing;

impl Meant for Nothing {
    type From = ((), ());

    type To = ();

    ghost means = { λ _ words. tt };

    fn meant(&self, _from: ((), ())) {}
}

/// The layout of a letter's name.
#[derive(Drop)]
struct LetterLayout;

impl Form for LetterLayout {
    type Meaning = ();

    ghost grammar = { λ _. letter_layout };

    fn read(&self, alloc: Global, bytes: &[u8]) -> Result<Option<()>, AllocError> {
        Just(b"|", (), Means(Cut(b'.', Word, Word), Nothing)).read(alloc, bytes)
    }
}

/// The names of the letters of a system's automata.
#[derive(Drop)]
struct Letters<'a>(&'a Alphabet<'a>, &'a Places);

impl<'a> Names for Letters<'a> {
    ghost names = { λ x. letter_texts x.0.now.sections };

    fn place_of(&self, bytes: &[u8]) -> Option<usize> {
        self.0.letter(self.1, bytes)
    }

    fn count(&self) -> usize {
        self.0.size() as usize
    }
}

/// A letter of a system's automata, which means its number.
#[derive(Drop)]
pub struct Letter<'a>(pub &'a Alphabet<'a>, pub &'a Places);

impl<'a> Form for Letter<'a> {
    type Meaning = u32;

    ghost grammar = { λ x. letter x.0.now };

    fn read(&self, alloc: Global, bytes: &[u8]) -> Result<Option<u32>, AllocError> {
        Numbered(Letters(self.0, self.1), LetterLayout).read(alloc, bytes)
    }
}

/// The place of the first of these names with the bytes, if there is one.
pub fn place_among(names: &[Text], bytes: &[u8]) -> Option<usize>
    ensures { result ≡ position (bytes_eq bytes.now) names.now }
{
    names
        .iter()
        .position(|name| is(bytes, name.as_str().as_bytes()))
}

/// Whether the bytes are the text.
pub fn is(bytes: &[u8], text: &[u8]) -> bool
    ensures { result ≡ bytes_eq bytes.now text.now }
{
    bytes == text
}
