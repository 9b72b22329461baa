//! From configurations to texts.
//! One pass over the lists, in time linear in the text.

ghost use Rattle.std.specs.Prelude.{◌≡◌, ◌++◌, ◌<◌, ◌∷◌, [], All, IfOk, OnOk, IsTrue, codes, flat_map};
ghost use Rattle.protocol_model.specs.System.{letter_count};
ghost use Rattle.protocol_model.specs.Patterns.{fits};
ghost use Rattle.configuration_words.specs.ConfigurationText.{MeansConfiguration};
ghost use Rattle.configuration_words.specs.Texts.{configuration_text, letter_name, list_text, part_text};

use protocol_model::{Configuration, Section, System};
use std::alloc::{AllocError, Global};

/// The text of the configuration: for each section its name and its letters, as `S: a; C: m m`, or `empty` where a list has no letter.
pub fn configuration_text(
    alloc: Global,
    system: &System,
    configuration: &Configuration,
) -> Result<Vec<u8>, AllocError>
    requires { IsTrue (fits system.now configuration.now) }
    ensures text { IfOk result (λ text. text.items ≡ configuration_text system.now configuration.now) }
    ensures read_back { IfOk result (λ text. MeansConfiguration system.now text.items configuration.now) }
{
    let lists = configuration.lists.as_slice();
    let mut text = Vec::new(alloc);
    'sections: for (index, section) in system.sections.as_slice().iter().enumerate() {
        if index > 0 {
            text.extend_from_slice(b"; ")?;
        }
        push_part(&mut text, section, lists[index].as_slice())?;
    }
    Ok(text)
}

/// Appends the part of a section.
fn push_part(text: &mut Vec<u8>, section: &Section, list: &[u32]) -> Result<(), AllocError>
    requires { All (λ letter. letter < letter_count section.now) list.now }
    ensures { OnOk result (text.new.items ≡ text.old.items ++ part_text section.now list.now) }
{
    text.extend_from_slice(section.name.as_str().as_bytes())?;
    text.extend_from_slice(b": ")?;
    push_list(text, section, list)
}

/// Appends the names of the letters, or `empty`.
fn push_list(text: &mut Vec<u8>, section: &Section, list: &[u32]) -> Result<(), AllocError>
    requires { All (λ letter. letter < letter_count section.now) list.now }
    ensures { OnOk result (text.new.items ≡ text.old.items ++ list_text section.now list.now) }
{
    match list {
        [] => text.extend_from_slice(b"empty"),
        [first, others @ ..] => {
            push_letter(text, section, *first)?;
            push_letters(text, section, others)
        }
    }
}

/// Appends the names of the letters, each behind a space.
fn push_letters(text: &mut Vec<u8>, section: &Section, list: &[u32]) -> Result<(), AllocError>
    requires { All (λ letter. letter < letter_count section.now) list.now }
    ensures { OnOk result (text.new.items ≡ text.old.items ++ flat_map (λ letter. codes " " ++ letter_name section.now letter) list.now) }
{
    'letters: for letter in list {
        text.push(b' ')?;
        push_letter(text, section, *letter)?;
    }
    Ok(())
}

/// Appends the name of the letter.
fn push_letter(text: &mut Vec<u8>, section: &Section, letter: u32) -> Result<(), AllocError>
    requires { letter < letter_count section.now }
    ensures { OnOk result (text.new.items ≡ text.old.items ++ letter_name section.now letter) }
{
    let name = section.letters.as_slice()[letter as usize].as_str();
    text.extend_from_slice(name.as_bytes())
}
