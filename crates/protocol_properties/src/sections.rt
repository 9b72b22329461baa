//! The sections of a system as a text writes them, so that the names of another text are looked up as those of a protocol are.
//! The copies take the room of all names of sections and letters.

ghost use Rattle.std.specs.Prelude.{◌≡◌, IfOk, map};
ghost use Rattle.protocol_properties.specs.Sections.{name_of, names_of, section_text};

use protocol_lexer::Place;
use protocol_model::{Section, copy_text};
use protocol_syntax::{Name, SectionText};
use sequence::{Sequence, Text};
use std::alloc::{AllocError, Global};

/// The text as a name.
fn copy_as_name(alloc: Global, text: &Text) -> Result<Name, AllocError>
    ensures { IfOk result (λ name. name ≡ name_of text.now) }
{
    Ok(Name {
        text: copy_text(alloc, text)?,
        place: Place { line: 1, column: 1 },
    })
}

/// The texts as names.
fn copy_as_names(alloc: Global, texts: &[Text]) -> Result<Sequence<Name>, AllocError>
    ensures { IfOk result (λ names. names ≡ names_of texts.now) }
{
    let mut names = Vec::new(alloc);
    'texts: for text in texts {
        let name = copy_as_name(alloc, text)?;
        names.push(name)?;
    }
    Ok(Sequence::from_vec(names))
}

/// The section as a text writes it.
fn section_text(alloc: Global, section: &Section) -> Result<SectionText, AllocError>
    ensures { IfOk result (λ text. text ≡ section_text section.now) }
{
    let name = copy_as_name(alloc, &section.name)?;
    let letters = copy_as_names(alloc, section.letters.as_slice())?;
    Ok(SectionText {
        kind: section.kind,
        name,
        letters,
    })
}

/// The sections as a text writes them.
pub fn section_texts(
    alloc: Global,
    sections: &[Section],
) -> Result<Sequence<SectionText>, AllocError>
    ensures { IfOk result (λ texts. texts ≡ map section_text sections.now) }
{
    let mut texts = Vec::new(alloc);
    'sections: for section in sections {
        let text = section_text(alloc, section)?;
        texts.push(text)?;
    }
    Ok(Sequence::from_vec(texts))
}
