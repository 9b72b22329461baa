//! The configurations of runs.
//! A part is read for each section; a name is compared with those of the section's letters.

ghost use Rattle.std.specs.Prelude.{◌≡◌, ◌∷◌, [], IfOk, false, map, position, true};
ghost use Rattle.std.specs.Str.{bytes_eq};
ghost use Rattle.lines.specs.Reading.{IsReading};
ghost use Rattle.protocol_model.specs.Patterns.{has_any_length};
ghost use Rattle.certificate.specs.Configurations.{configuration, list, of_section, part};

use crate::alphabet::Alphabet;
use crate::words::{Name, is, place_among};
use lines::{Case, Cut, Fields, Form, FormOf, Names, NoLine, Numbered, OrEmpty, read_each};
use protocol_model::{Configuration, Rule, Section};
use sequence::Sequence;
use std::alloc::{AllocError, Global};
use std::marker::PhantomData;
use std::slice::from_ref;

/// The letters of a section.
#[derive(Drop)]
struct Letters<'a>(&'a Section);

impl<'a> Names for Letters<'a> {
    ghost names = { λ x. x.0.now.letters };

    fn place_of(&self, bytes: &[u8]) -> Option<usize> {
        place_among(self.0.letters.as_slice(), bytes)
    }

    fn count(&self) -> usize {
        self.0.letters.len()
    }
}

/// The name of a section.
#[derive(Drop)]
struct Called<'a>(&'a Section);

impl<'a> Names for Called<'a> {
    ghost names = { λ x. x.0.now.name ∷ [] };

    fn place_of(&self, bytes: &[u8]) -> Option<usize> {
        place_among(from_ref(&self.0.name), bytes)
    }

    fn count(&self) -> usize {
        1
    }
}

/// The names of a system's rules.
#[derive(Drop)]
pub struct Rules<'a>(pub &'a Alphabet<'a>);

impl<'a> Names for Rules<'a> {
    ghost names = { λ x. map (λ rule. rule.name) x.0.now.rules };

    fn place_of(&self, bytes: &[u8]) -> Option<usize> {
        let system = self.0.system();
        rule_place(system.rules.as_slice(), bytes)
    }

    fn count(&self) -> usize {
        self.0.system().rules.len()
    }
}

/// The place of the first rule with this name, if there is one.
fn rule_place(rules: &[Rule], name: &[u8]) -> Option<usize>
    ensures { result ≡ position (λ rule. bytes_eq name.now rule.name) rules.now }
{
    rules
        .iter()
        .position(|rule| is(name, rule.name.as_str().as_bytes()))
}

/// The list of a section: one letter of a cell, else any number of letters, or `empty`.
#[derive(Drop)]
struct List<'a>(&'a Section);

impl<'a> Form for List<'a> {
    type Meaning = Sequence<u32>;

    ghost grammar = { λ x. list (has_any_length x.0.now.kind) x.0.now.letters };

    fn read(&self, alloc: Global, bytes: &[u8]) -> Result<Option<Sequence<u32>>, AllocError> {
        if self.0.has_any_length() {
            return read_letters(alloc, self.0, bytes);
        }
        read_letter(alloc, self.0, bytes)
    }
}

/// Letters of the section, or `empty`.
fn read_letters(
    alloc: Global,
    section: &Section,
    bytes: &[u8],
) -> Result<Option<Sequence<u32>>, AllocError>
    ensures { IfOk result (IsReading (list true section.now.letters) bytes.now) }
{
    let letter = Numbered(Letters(section), Name);
    OrEmpty(b"empty", Fields(b' ', letter)).read(alloc, bytes)
}

/// A letter of the section.
fn read_letter(
    alloc: Global,
    section: &Section,
    bytes: &[u8],
) -> Result<Option<Sequence<u32>>, AllocError>
    ensures { IfOk result (IsReading (list false section.now.letters) bytes.now) }
{
    match Numbered(Letters(section), Name).read(alloc, bytes)? {
        Some(letter) => Ok(Some(one_letter(alloc, letter)?)),
        None => Ok(None),
    }
}

/// A list of one letter.
fn one_letter(alloc: Global, letter: u32) -> Result<Sequence<u32>, AllocError>
    ensures { IfOk result (λ letters. letters ≡ letter ∷ []) }
{
    let mut letters = Vec::new(alloc);
    letters.push(letter)?;
    Ok(Sequence::from_vec(letters))
}

/// The list of a part with a name; where this is not the section's, a list with a letter that the section does not have.
fn list_of(
    alloc: Global,
    section: &Section,
    name: u32,
    letters: Sequence<u32>,
) -> Result<Sequence<u32>, AllocError>
    ensures { IfOk result (λ list. list ≡ of_section section.now (name, letters)) }
{
    if name == 0 {
        return Ok(letters);
    }
    match u32::try_from(section.letters.len()) {
        Ok(count) => one_letter(alloc, count),
        Err(_) => Err(AllocError),
    }
}

/// A part for a section.
#[derive(Drop)]
struct Parts;

impl FormOf for Parts {
    type Value = Section;

    type Meaning = Sequence<u32>;

    ghost grammar = { λ _ section. part section };

    fn read_for(
        &self,
        section: &Section,
        alloc: Global,
        bytes: &[u8],
    ) -> Result<Option<Sequence<u32>>, AllocError> {
        let name = Numbered(Called(section), Name);
        let part = Cut(b':', name, Case(b" ", List(section), NoLine(PhantomData)));
        match part.read(alloc, bytes)? {
            Some((name, letters)) => Ok(Some(list_of(alloc, section, name, letters)?)),
            None => Ok(None),
        }
    }
}

/// A configuration of a system: a part for each section.
#[derive(Drop)]
pub struct Configurations<'a>(pub &'a Alphabet<'a>);

impl<'a> Form for Configurations<'a> {
    type Meaning = Configuration;

    ghost grammar = { λ x. configuration x.0.now.sections };

    fn read(&self, alloc: Global, bytes: &[u8]) -> Result<Option<Configuration>, AllocError> {
        let system = self.0.system();
        read_parts(alloc, system.sections.as_slice(), bytes)
    }
}

/// A part for each section.
fn read_parts(
    alloc: Global,
    sections: &[Section],
    bytes: &[u8],
) -> Result<Option<Configuration>, AllocError>
    ensures { IfOk result (IsReading (configuration sections.now) bytes.now) }
{
    let parts = read_each(&Parts, b';', b" ", sections, alloc, bytes)?;
    match parts {
        Some(lists) => Ok(Some(Configuration {
            lists: Sequence::from_vec(lists),
        })),
        None => Ok(None),
    }
}
