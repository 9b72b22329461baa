//! Names by their places.
//! What is looked for among the names is looked at as a name only where it is not there.

ghost use Rattle.std.specs.Prelude.{◌≡◌, ℕ, List, IfOk, Some, length, position};
ghost use Rattle.std.specs.Str.{bytes_eq};
ghost use Rattle.lines.specs.Grammar.{numbered};

use crate::form::Form;
use std::alloc::{AllocError, Global};

/// Names, each with its place.
pub trait Names {
    ghost names: { Self → List (List ℕ) };

    /// The place of the first name with these bytes, if there is one.
    fn place_of(&self, bytes: &[u8]) -> Option<usize>
        ensures { result ≡ position (bytes_eq bytes.now) (names self.now) };

    /// The number of names.
    fn count(&self) -> usize
        ensures { result ≡ length (names self.now) };
}

/// One of the names, which means its place; other bytes are a line of the form, and mean the number of names.
#[derive(Drop)]
pub struct Numbered<N, X>(pub N, pub X);

impl<N: Names, X: Form> Form for Numbered<N, X> {
    type Meaning = u32;

    ghost grammar = { λ x. numbered (N.names x.0) (X.grammar x.1) };

    fn read(&self, alloc: Global, bytes: &[u8]) -> Result<Option<u32>, AllocError> {
        if let Some(place) = self.0.place_of(bytes) {
            return number_of(place);
        }
        match self.1.read(alloc, bytes)? {
            Some(_) => number_of(self.0.count()),
            None => Ok(None),
        }
    }
}

/// The same number, which takes no more than 32 bits where the names fit into memory.
fn number_of(place: usize) -> Result<Option<u32>, AllocError>
    ensures { IfOk result (λ number. number ≡ Some place) }
{
    match u32::try_from(place) {
        Ok(number) => Ok(Some(number)),
        Err(_) => Err(AllocError),
    }
}
