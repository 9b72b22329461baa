//! Numbers in decimal.
//! A number of any length is read in one pass, where all values past a limit count as the limit.

ghost use Rattle.std.specs.Prelude.{◌≡◌, ◌<◌, ◌^◌, min, MatchOption};
ghost use Rattle.std.specs.Str.Parse.{digits_value};
ghost use Rattle.lines.specs.Bytes.{IsNumber};
ghost use Rattle.lines.specs.Grammar.{number};

use crate::form::Form;
use std::alloc::{AllocError, Global};

/// A number. One that is past the limit means the limit.
#[derive(Drop)]
pub struct Number {
    pub limit: u32,
}

impl Form for Number {
    type Meaning = u32;

    ghost grammar = { λ x. number x.limit };

    fn read(&self, _alloc: Global, bytes: &[u8]) -> Result<Option<u32>, AllocError> {
        Ok(read_number(bytes, self.limit))
    }
}

/// The number that the field is, or `None` where it is none: a number is `0`, or a digit from `1` to `9` and any
/// digits after it. One that is past the limit is read as the limit.
fn read_number(field: &[u8], limit: u32) -> Option<u32>
    ensures { MatchOption result (IsNumber field.now → ⊥) (λ n. IsNumber field.now × (n ≡ min (digits_value 10 field.now) limit)) }
{
    if field.is_empty() || (field[0] == b'0' && field.len() > 1) {
        return None;
    }
    let most = limit as usize;
    let mut number = 0;
    'digits: for byte in field {
        if !byte.is_ascii_digit() {
            return None;
        }
        number = (number * 10 + (*byte - b'0') as usize).min(most);
    }
    Some(number as u32)
}
