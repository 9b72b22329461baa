//! From words to configurations.
//! The word is cut at its separators from the left, and each part is lowered and judged; time is linear in the word.

ghost use Rattle.std.specs.Prelude.{◌≡◌, ◌≢◌, ◌==◌, ◌||◌, ◌+◌, ◌<◌, ◌≤◌, ℕ, List, IfOk, IfSome, MatchOption, IsTrue, Some, length, nat_lt, option_copied, position};
ghost use Rattle.std.specs.List.{list_all};
ghost use Rattle.protocol_syntax.specs.declared.limits.TheConstants.{MAX_LETTERS};
ghost use Rattle.protocol_model.specs.declared.system.Configuration.{Configuration};
ghost use Rattle.protocol_model.specs.System.{letter_count};
ghost use Rattle.protocol_model.specs.Patterns.{fits, has_any_length, list_fits};
ghost use Rattle.protocol_model.specs.Words.{raised, word_of};
ghost use Rattle.configuration_words.specs.private.Cuts.{IsCut};

use protocol_model::{Configuration, Section, System};
use sequence::Sequence;
use std::alloc::{AllocError, Global};

/// The configuration of which the word is, or `None` where the word is that of no configuration that fits the system.
pub fn decode(
    alloc: Global,
    system: &System,
    word: &[u32],
) -> Result<Option<Configuration>, AllocError>
    ensures found { IfOk result (λ found. MatchOption found
        ((c : Configuration) → IsTrue (fits system.now c) → word.now ≢ word_of system.now c)
        (λ c. IsTrue (fits system.now c) × (word.now ≡ word_of system.now c))) }
    ensures unique { (c : Configuration) → IsTrue (fits system.now c) → word.now ≡ word_of system.now c
        → IfOk result (λ found. found ≡ Some c) }
{
    let separator = system.separator();
    let mut lists = Vec::new(alloc);
    let mut offset = 0;
    let mut rest = Some(word);
    'sections: for section in system.sections.as_slice() {
        let Some(letters) = rest else {
            return Ok(None);
        };
        let (front, behind) = cut(letters, separator);
        let Some(list) = lowered(alloc, section, offset, front)? else {
            return Ok(None);
        };
        lists.push(list)?;
        offset += section.letter_count();
        rest = behind;
    }
    if rest.is_some() {
        return Ok(None);
    }
    Ok(Some(Configuration {
        lists: Sequence::from_vec(lists),
    }))
}

/// What stands before the first separator, and what stands behind it if there is one.
fn cut(letters: &[u32], separator: u32) -> (&[u32], Option<&[u32]>)
    ensures { IsCut separator letters.now result.0.now (option_copied result.1) }
{
    match place_of(letters, separator) {
        Some(place) => (&letters[..place], Some(&letters[place + 1..])),
        None => (letters, None),
    }
}

/// The place of the first separator, if there is one.
fn place_of(letters: &[u32], separator: u32) -> Option<usize>
    ensures place { result ≡ position (λ letter. letter == separator) letters.now }
    ensures within { IfSome result (λ place. place < length letters.now) }
{
    letters.iter().position(|letter| *letter == separator)
}

/// The list of the section that is raised by the offset to these letters, if there is one.
fn lowered(
    alloc: Global,
    section: &Section,
    offset: u32,
    letters: &[u32],
) -> Result<Option<Sequence<u32>>, AllocError>
    requires { offset + letter_count section.now ≤ MAX_LETTERS }
    ensures { IfOk result (λ lowered. MatchOption lowered
        ((list : List ℕ) → IsTrue (list_fits section.now list) → letters.now ≡ raised offset list → ⊥)
        (λ list. IsTrue (list_fits section.now list) × (letters.now ≡ raised offset list))) }
{
    if !may_have_length(section, letters.len()) {
        return Ok(None);
    }
    match lowered_letters(alloc, letters, offset, section.letter_count())? {
        Some(list) => Ok(Some(Sequence::from_vec(list))),
        None => Ok(None),
    }
}

/// Whether the section may have a list of this length.
fn may_have_length(section: &Section, length: usize) -> bool
    ensures { result ≡ (has_any_length section.now.kind || (length == 1)) }
{
    section.has_any_length() || length == 1
}

/// The letters below the count that are raised by the offset to these letters, if they are.
fn lowered_letters(
    alloc: Global,
    letters: &[u32],
    offset: u32,
    count: u32,
) -> Result<Option<Vec<u32>>, AllocError>
    ensures { IfOk result (λ lowered. MatchOption lowered
        ((list : List ℕ) → IsTrue (list_all (λ a. nat_lt a count) list) → letters.now ≡ raised offset list → ⊥)
        (λ list. IsTrue (list_all (λ a. nat_lt a count) list.items) × (letters.now ≡ raised offset list.items))) }
{
    let mut list = Vec::with_capacity(alloc, letters.len())?;
    'letters: for letter in letters {
        if *letter < offset || *letter - offset >= count {
            return Ok(None);
        }
        list.push(*letter - offset)?;
    }
    Ok(Some(list))
}
