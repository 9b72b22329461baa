//! The sections of a protocol, found by their names.
//! A section is found by its name in constant expected time, and keeps the numbers of its letters.

ghost use Rattle.std.specs.Prelude.{◌≡◌, ◌<◌, ◌≤◌, [], ◌∷◌, ◌++◌, IfOk, IfSome, IfNone, length, false};
ghost use Rattle.std.specs.List.{AllByRecursion};
ghost use Rattle.std.specs.Option.{option_or};
ghost use Rattle.protocol_model.specs.Numbering.{texts_of, section_names};
ghost use Rattle.protocol_model.specs.Faults.{duplicate, is_among, section_fault, first_fault_of};
ghost use Rattle.protocol_model.specs.Outcome.{IsOutcome, IsFault, IsSectionNamed};
ghost use Rattle.protocol_model.specs.declared.fault.ModelFault.TheVariants as fault;
ghost use Rattle.protocol_model.specs.declared.names.TheConstants.{MAX_NAMES};

use crate::fault::ModelFault;
use crate::names::Names;
use protocol_syntax::{Kind, Name, SectionText};
use sequence::Text;
use std::alloc::{AllocError, Global};
use std::marker::Model;

/// The sections of a protocol with distinct names, and the letters of each by number.
#[derive(Drop)]
pub struct Sections<'a> {
    texts: &'a [SectionText],
    numbers: Names<'a>,
    letters: Vec<Names<'a>>,
}

impl<'a> Model for Sections<'a> {
    ghost use Rattle.std.specs.Prelude.{◌≡◌, List, map};
    ghost use Rattle.protocol_syntax.specs.declared.protocol.SectionText.{SectionText as AnySection};
    ghost use Rattle.protocol_model.specs.Numbering.{texts_of, section_names};

    ghost Value = { List AnySection };

    ghost view = { λ s. s.texts.now };

    ghost invariant = { λ s. (s.numbers ≡ section_names s.texts.now)
        × (s.letters.items ≡ map (λ section. texts_of section.letters) s.texts.now) };
}

/// A section, as a protocol's other parts see it.
#[derive(Clone, Copy)]
pub struct Found<'b, 'a> {
    /// The section's number.
    pub number: u32,
    /// Its kind.
    pub kind: Kind,
    /// Its letters.
    pub letters: &'b Names<'a>,
}

/// A copy of a text.
pub fn copy_text(alloc: Global, text: &Text) -> Result<Text, AllocError>
    ensures { IfOk result (λ copy. copy ≡ text.now) }
{
    Ok(Text::from_string(String::from_str(alloc, text.as_str())?))
}

/// A copy of a name.
pub fn copy_name(alloc: Global, name: &Name) -> Result<Name, AllocError>
    ensures { IfOk result (λ copy. copy ≡ name.now) }
{
    Ok(Name {
        text: copy_text(alloc, &name.text)?,
        place: name.place,
    })
}

/// The fault of a name that stands twice.
pub fn duplicate_name(alloc: Global, name: &Name) -> ModelFault
    ensures { IsFault (fault.Duplicate name.now) result }
{
    match copy_name(alloc, name) {
        Ok(name) => ModelFault::Duplicate { name },
        Err(_) => ModelFault::Memory,
    }
}

/// The fault of a name that stands for nothing.
pub fn unknown_name(alloc: Global, name: &Name) -> ModelFault
    ensures { IsFault (fault.Unknown name.now) result }
{
    match copy_name(alloc, name) {
        Ok(name) => ModelFault::Unknown { name },
        Err(_) => ModelFault::Memory,
    }
}

/// Gives the name the next number, or answers that it stands twice.
pub fn add_name<'a>(alloc: Global, names: &mut Names<'a>, name: &'a Name) -> Result<(), ModelFault>
    requires { length names.old < MAX_NAMES }
    ensures outcome { IsOutcome (duplicate names.old name.now) tt result }
    ensures added { IfOk result (λ _. names.new ≡ names.old ++ name.now.text ∷ []) }
{
    if names.add(name.text.as_str())? {
        Ok(())
    } else {
        Err(duplicate_name(alloc, name))
    }
}

/// The letters of a section by number, or the first of them that stands twice.
fn letter_names<'a>(alloc: Global, letters: &'a [Name]) -> Result<Names<'a>, ModelFault>
    requires { length letters.now ≤ MAX_NAMES }
    ensures { IsOutcome (first_fault_of (λ before. duplicate (texts_of before)) [] letters.now) (texts_of letters.now) result }
{
    let mut names = Names::new(alloc);
    'letters: for letter in letters {
        add_name(alloc, &mut names, letter)?;
    }
    Ok(names)
}

/// The letters of a section by number, where its name gets the next number of a section; or the first of these names that stands twice.
fn number_section<'a>(
    alloc: Global,
    numbers: &mut Names<'a>,
    section: &'a SectionText,
) -> Result<Names<'a>, ModelFault>
    requires few { length numbers.old < MAX_NAMES }
    requires few_letters { length section.now.letters ≤ MAX_NAMES }
    ensures outcome { IsOutcome (option_or (duplicate numbers.old section.now.name)
        (first_fault_of (λ before. duplicate (texts_of before)) [] section.now.letters)) (texts_of section.now.letters) result }
    ensures added { IfOk result (λ _. numbers.new ≡ numbers.old ++ section.now.name.text ∷ []) }
{
    add_name(alloc, numbers, &section.name)?;
    letter_names(alloc, section.letters.as_slice())
}

impl<'a> Sections<'a> {
    /// The sections by name, or the first name of a section or a letter that stands twice.
    pub fn new(alloc: Global, texts: &'a [SectionText]) -> Result<Sections<'a>, ModelFault>
        requires few { length texts.now ≤ MAX_NAMES }
        requires few_letters { AllByRecursion (λ section. length section.letters ≤ MAX_NAMES) texts.now }
        ensures { IsOutcome (first_fault_of section_fault [] texts.now) texts.now result }
    {
        let mut numbers = Names::new(alloc);
        let mut letters = Vec::new(alloc);
        'sections: for section in texts {
            let names = number_section(alloc, &mut numbers, section)?;
            letters.push(names)?;
        }
        Ok(Sections {
            texts,
            numbers,
            letters,
        })
    }

    /// The section of this name.
    pub fn find(&self, name: &Name) -> Option<Found<'_, 'a>>
        ensures found { IfSome result (λ s. IsSectionNamed self.now name.now s.number s.kind s.letters.now) }
        ensures missing { IfNone result (is_among (section_names self.now) name.now ≡ false) }
    {
        let number = self.numbers.number(name.text.as_str())?;
        Some(Found {
            number,
            kind: self.texts[number as usize].kind,
            letters: &self.letters[number as usize],
        })
    }
}
