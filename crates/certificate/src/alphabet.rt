//! The letters of a system's automata, and how they are found by their texts.
//! The texts of all letters are made once, and for reading a map says where one of them stands, by its hash (FNV-1a): a letter is found in
//! constant expected time. What the map says is compared with the text that stands there, and a text that it does not have is searched for
//! among all.

ghost use Rattle.std.specs.Prelude.{◌≡◌, ◌++◌, ◌<◌, IfOk, OnOk, codes, length, position};
ghost use Rattle.std.specs.Str.{bytes_eq};
ghost use Rattle.protocol_model.specs.System.{IsValid};
ghost use Rattle.protocol_model.specs.Words.{automata_letters};
ghost use Rattle.certificate.specs.Words.{letter_text, letter_texts, section_texts};

use crate::words::{is, place_among};
use protocol_model::{Section, System};
use sequence::Text;
use std::alloc::{AllocError, Global};
use std::collections::HashMap;
use std::marker::Model;

/// The letters of a system's automata. The text of a letter is the name of its section and its own name with a dot
/// between them, and `|` for the separator.
#[derive(Drop)]
pub struct Alphabet<'a> {
    system: &'a System,
    texts: Vec<Text>,
}

/// Where texts of letters stand, by their hashes.
pub(crate) type Places = HashMap<u64, usize>;

impl<'a> Model for Alphabet<'a> {
    ghost use Rattle.protocol_model.specs.System.{SystemData};
    ghost use Rattle.certificate.specs.private.Alphabet.{IsAlphabetOf};

    ghost Value = { SystemData };

    ghost view = { λ alphabet. alphabet.system.now };

    ghost invariant = { λ alphabet. IsAlphabetOf alphabet.system.now alphabet.texts.items };
}

impl<'a> Alphabet<'a> {
    /// The letters of the automata of this system.
    pub fn new(alloc: Global, system: &'a System) -> Result<Alphabet<'a>, AllocError>
        ensures same { IfOk result (λ alphabet. alphabet ≡ system.now) }
        ensures valid { OnOk result (IsValid system.now) }
    {
        let texts = letter_texts(alloc, system)?;
        Ok(Alphabet { system, texts })
    }

    /// The system.
    pub(crate) fn system(&self) -> &System
        ensures { result.now ≡ self.now }
    {
        self.system
    }

    /// The number of letters.
    pub fn size(&self) -> u32
        ensures count { result ≡ automata_letters self.now }
        ensures texts { result ≡ length (letter_texts self.now.sections) }
    {
        self.texts.len() as u32
    }

    /// The text of a letter.
    pub fn text(&self, letter: u32) -> &[u8]
        requires { letter < automata_letters self.now }
        ensures { result.now ≡ letter_text self.now.sections letter }
    {
        let text: &Text = &self.texts[letter as usize];
        text.as_str().as_bytes()
    }

    /// Where the texts of the letters stand.
    pub(crate) fn places(&self, alloc: Global) -> Result<Places, AllocError> {
        let mut places = HashMap::new(alloc);
        'texts: for place in 0..self.texts.len() {
            places.insert(hash_of(self.texts[place].as_str().as_bytes()), place)?;
        }
        Ok(places)
    }

    /// The number of the letter with this text, if there is one.
    pub(crate) fn letter(&self, places: &Places, text: &[u8]) -> Option<usize>
        ensures { result ≡ position (bytes_eq text.now) (letter_texts self.now.sections) }
    {
        if let Some(place) = places.get(&hash_of(text)).copied() {
            if place < self.texts.len() && is(text, self.texts[place].as_str().as_bytes()) {
                return Some(place);
            }
        }
        place_among(self.texts.as_slice(), text)
    }
}

/// The texts of all letters, in the order of their numbers.
fn letter_texts(alloc: Global, system: &System) -> Result<Vec<Text>, AllocError>
    ensures texts { IfOk result (λ texts. texts.items ≡ letter_texts system.now.sections) }
    ensures valid { IsValid system.now }
{
    let mut texts = Vec::new(alloc);
    'sections: for section in system.sections.as_slice() {
        push_section(alloc, &mut texts, section)?;
    }
    texts.push(Text::from_string(String::from_str(alloc, "|")?))?;
    Ok(texts)
}

/// Adds the texts of the section's letters.
fn push_section(alloc: Global, texts: &mut Vec<Text>, section: &Section) -> Result<(), AllocError>
    ensures { OnOk result (texts.new.items ≡ texts.old.items ++ section_texts section.now) }
{
    'letters: for letter in section.letters.as_slice() {
        texts.push(joined(alloc, section.name.as_str(), letter.as_str())?)?;
    }
    Ok(())
}

/// The text of a letter: its section's name and its own, with a dot between them.
fn joined(alloc: Global, section: &str, letter: &str) -> Result<Text, AllocError>
    ensures { IfOk result (λ text. text ≡ section.now ++ codes "." ++ letter.now) }
{
    let text = format!(in alloc; "{section}.{letter}")?;
    Ok(Text::from_string(text))
}

/// The hash of a text.
fn hash_of(text: &[u8]) -> u64 {
    let mut hash: u64 = 0xcbf2_9ce4_8422_2325;
    'bytes: for byte in text {
        hash = (hash ^ u64::from(*byte)).wrapping_mul(0x100_0000_01b3);
    }
    hash
}
