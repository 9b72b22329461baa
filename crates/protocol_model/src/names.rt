//! Names by number.
//! Names are numbered in the order in which they come, in a set with constant expected time for each name.

ghost use Rattle.std.specs.Prelude.{◌≡◌, ◌+◌, ◌<◌, ◌≤◌, ℕ, List, [], ◌∷◌, ◌++◌, IfOk, length, map, not, None, Some, if◌then◌else◌};
ghost use Rattle.std.specs.List.{list_any, position_or_len};
ghost use Rattle.std.specs.Str.{bytes_eq};
ghost use Rattle.protocol_model.specs.Names.{is_name, is_word};
ghost use Rattle.protocol_model.specs.declared.names.TheConstants.{MAX_NAMES};

use forms::MAX_NAME_BYTES;
use indexmap::IndexSet;
use protocol_lexer::are_word_bytes;
use protocol_syntax::{MAX_RULES, keyword_of};
use std::alloc::{AllocError, Global};
use std::marker::Model;

/// The most names that are numbered together: as many as there may be rules. Sections, and the letters of one, are no more.
pub const MAX_NAMES: usize = MAX_RULES;

/// Distinct names, no more than `MAX_NAMES`, numbered from 0 in the order in which they were added.
#[derive(Drop)]
pub struct Names<'a> {
    set: IndexSet<&'a str>,
}

impl<'a> Model for Names<'a> {
    ghost Value = { List (List ℕ) };

    ghost view = { λ names. map (λ key. key.now) names.set.keys };

    ghost invariant = { λ names. length names.set.keys ≤ MAX_NAMES };
}

impl<'a> Names<'a> {
    /// No names. It takes no memory.
    pub fn new(alloc: Global) -> Names<'a>
        ensures { result ≡ [] }
    {
        Names {
            set: IndexSet::new(alloc),
        }
    }

    /// Gives the name the next number, and says whether it had none before. A name that has one keeps it.
    pub fn add(&mut self, name: &'a str) -> Result<bool, AllocError>
        requires { length self.old < MAX_NAMES }
        ensures added { IfOk result (λ added. added ≡ not (list_any (bytes_eq name.now) self.old)) }
        ensures names { IfOk result (λ added. self.new ≡ (if added then self.old ++ name.now ∷ [] else self.old)) }
    {
        let (_, added) = self.set.insert_full(name)?;
        Ok(added)
    }

    /// The number of the name.
    pub fn number(&self, name: &str) -> Option<u32>
        ensures { result ≡ (if list_any (bytes_eq name.now) self.now then Some (position_or_len (bytes_eq name.now) self.now) else None) }
    {
        match self.set.get_index_of(name) {
            Some(index) => Some(index as u32),
            None => None,
        }
    }

    /// How many names there are.
    pub fn len(&self) -> u32
        ensures { result ≡ length self.now }
    {
        self.set.len() as u32
    }
}

/// Whether the text is a name: 1 to `MAX_NAME_BYTES` bytes, each a letter of ASCII, a digit or `_`, and no reserved word.
/// It takes no memory.
pub fn is_name(text: &[u8]) -> bool
    ensures { result ≡ is_name text.now }
{
    is_word(text) && keyword_of(text).is_none()
}

/// Whether the text is a word of 1 to `MAX_NAME_BYTES` bytes, each a letter of ASCII, a digit or `_`, reserved or not.
/// It takes no memory.
pub fn is_word(text: &[u8]) -> bool
    ensures { result ≡ is_word text.now }
{
    !text.is_empty() && text.len() <= MAX_NAME_BYTES && are_word_bytes(text)
}
