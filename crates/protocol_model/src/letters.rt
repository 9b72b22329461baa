//! The letters of a section as a renaming: each name becomes its number.
//! A letter is looked up once for each name; sets of letters keep the order of the text. The left letters of a table are searched through,
//! so a table costs the square of its entries.

ghost use Rattle.std.specs.Prelude.{◌≡◌, IfOk, map};
ghost use Rattle.std.specs.List.{list_any, range_with_len};
ghost use Rattle.std.specs.Str.{bytes_eq};
ghost use Rattle.protocol_syntax.specs.MoveLetters.{base_names};
ghost use Rattle.protocol_model.specs.Numbering.{base_numbers, number_of};
ghost use Rattle.protocol_model.specs.Faults.{duplicate, unknown};

use crate::fault::ModelFault;
use crate::names::Names;
use crate::renaming::{Letters, MoveRenaming, Renaming};
use crate::sections::{duplicate_name, unknown_name};
use crate::traversal::resolve_each;
use protocol_syntax::{BaseText, Name};
use sequence::Sequence;
use std::alloc::{AllocError, Global};

/// The numbers below the count, in order.
fn numbers_below(alloc: Global, count: u32) -> Result<Sequence<u32>, AllocError>
    ensures { IfOk result (λ numbers. numbers ≡ range_with_len 0 count) }
{
    let mut numbers = Vec::new(alloc);
    'numbers: for number in 0..count {
        numbers.push(number)?;
    }
    Ok(Sequence::from_vec(numbers))
}

impl<'a> Renaming for Names<'a> {
    type Letter = Name;

    ghost number = { number_of };

    ghost fault = { unknown };

    fn letter(&self, alloc: Global, letter: &Name) -> Result<u32, ModelFault> {
        match self.number(letter.text.as_str()) {
            Some(number) => Ok(number),
            None => Err(unknown_name(alloc, letter)),
        }
    }
}

/// Whether one of the entries has this letter on the left.
fn is_replaced(entries: &[(Name, Name)], name: &Name) -> bool
    ensures { result ≡ list_any (λ entry. bytes_eq name.now.text entry.0.text) entries.now }
{
    entries
        .iter()
        .any(|entry| name.text.as_str() == entry.0.text.as_str())
}

impl<'a> MoveRenaming for Names<'a> {
    type Set = BaseText;

    ghost letters = { λ _. base_names };

    ghost numbers = { base_numbers };

    ghost left_fault = { λ _ earlier. duplicate (map (λ before. before.0.text) earlier) };

    fn set(&self, alloc: Global, set: &BaseText) -> Result<Sequence<u32>, ModelFault> {
        match set {
            BaseText::Letter(name) => {
                let number = self.letter(alloc, name)?;
                Ok(Sequence::from_vec(vec![in alloc; number]?))
            }
            BaseText::Set(names) => resolve_each(alloc, &Letters(self), names.as_slice()),
            BaseText::Any => Ok(numbers_below(alloc, self.len())?),
        }
    }

    fn check_entry(
        &self,
        alloc: Global,
        earlier: &[(Name, Name)],
        entry: &(Name, Name),
    ) -> Result<(), ModelFault> {
        if is_replaced(earlier, &entry.0) {
            return Err(duplicate_name(alloc, &entry.0));
        }
        Ok(())
    }
}
