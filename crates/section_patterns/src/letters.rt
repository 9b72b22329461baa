//! The letters on which a state goes on.
//! Each letter of a cell is tried alone on the pattern, in time linear in its atoms.

ghost use Rattle.std.specs.Prelude.{◌≡◌, ◌+◌, ◌^◌, ◌<◌, ◌≤◌, ◌∷◌, [], All, IfOk, IfSome, filter, length, option_copied};
ghost use Rattle.std.specs.List.{range_with_len};
ghost use Rattle.protocol_syntax.specs.declared.limits.TheConstants.{MAX_ATOMS, MAX_LETTERS};
ghost use Rattle.protocol_model.specs.Words.{raised};
ghost use Rattle.section_patterns.specs.private.Lists.{part_matches};

use protocol_model::Pattern;
use protocol_moves::atoms_match;
use std::alloc::{AllocError, Global};

/// The letters, each raised by the offset.
pub(crate) fn raised(alloc: Global, letters: &[u32], offset: u32) -> Result<Vec<u32>, AllocError>
    requires { All (λ letter. letter + offset < 2 ^ 32) letters.now }
    ensures { IfOk result (λ copies. copies.items ≡ raised offset letters.now) }
{
    let mut copies = Vec::with_capacity(alloc, letters.len())?;
    'letters: for letter in letters {
        copies.push(*letter + offset)?;
    }
    Ok(copies)
}

/// The letters of a section whose pattern matches them alone, each raised by the offset. Without a pattern these are all letters.
pub(crate) fn single_letters(
    alloc: Global,
    pattern: Option<&Pattern>,
    count: u32,
    offset: u32,
) -> Result<Vec<u32>, AllocError>
    requires limit { IfSome (option_copied pattern) (λ pattern. length pattern.atoms ≤ MAX_ATOMS) }
    requires letters { offset + count ≤ MAX_LETTERS }
    ensures { IfOk result (λ letters. letters.items
        ≡ raised offset (filter (λ a. part_matches (option_copied pattern.entry) (a ∷ [])) (range_with_len 0 count))) }
{
    let mut letters = Vec::new(alloc);
    'letters: for letter in 0..count {
        if matches_single(pattern, letter) {
            letters.push(letter + offset)?;
        }
    }
    Ok(letters)
}

/// Whether the pattern, if there is one, matches the list of this letter alone.
fn matches_single(pattern: Option<&Pattern>, letter: u32) -> bool
    requires { IfSome (option_copied pattern) (λ pattern. length pattern.atoms ≤ MAX_ATOMS) }
    ensures { result ≡ part_matches (option_copied pattern.entry) (letter ∷ []) }
{
    match pattern {
        Some(pattern) => atoms_match(pattern.atoms.as_slice(), &[letter]),
        None => true,
    }
}
