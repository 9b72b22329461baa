//! Codes of states by their classes and by their marks in three rows of a set of pairs, as binary numbers: states have one code exactly
//! where they have one class and the same marks. They take time linear in the states.

ghost use Rattle.std.specs.Prelude.{◌≡◌, ◌<◌, ◌≤◌, ◌+◌, ◌*◌, ◌^◌, IsTrue, IfOk, length, slice_index};
ghost use Rattle.abstraction.specs.Partitions.{AreNumbers};
ghost use Rattle.predicate_abstraction.specs.private.Codes.{with_bit, IsMark, IsCode, AreCodes};
ghost use Rattle.predicate_abstraction.specs.private.Splitting.{HaveSame, HaveSameRows};

use crate::pair_set::PairSet;
use std::alloc::{AllocError, Global};

/// A code takes three bits more than a class.
const CODES_OF_A_CLASS: usize = 8;

/// The codes of the columns, which are states with these classes, by their marks in the row and the two behind it.
pub fn codes(
    alloc: Global,
    classes: &[usize],
    set: &PairSet,
    row: usize,
) -> Result<Vec<usize>, AllocError>
    requires classes { AreNumbers set.now.columns classes.now }
    requires row { row + 3 < 2 ^ 64 }
    ensures { IfOk result (λ codes. AreCodes set.now row classes.now codes.items set.now.columns) }
{
    let count = classes.len();
    if count.checked_mul(CODES_OF_A_CLASS).is_none() {
        return Err(AllocError);
    }
    let mut codes = Vec::with_capacity(alloc, count)?;
    'columns: for column in 0..count {
        codes.push(code(classes[column], set, row, column))?;
    }
    Ok(codes)
}

/// Whether both columns have the same marks in the row and the two behind it.
pub fn have_same_marks(set: &PairSet, row: usize, one: usize, other: usize) -> bool
    requires row { row + 3 < 2 ^ 64 }
    requires one { one < set.now.columns }
    requires other { other < set.now.columns }
    ensures { IsTrue result → HaveSameRows set.now row (row + 3) one other }
{
    if one == other {
        return true;
    }
    if !have_same_mark(set, row, one, other) {
        return false;
    }
    if !have_same_mark(set, row + 1, one, other) {
        return false;
    }
    have_same_mark(set, row + 2, one, other)
}

/// Whether both columns have the same mark in the row.
fn have_same_mark(set: &PairSet, row: usize, one: usize, other: usize) -> bool
    requires one { one < set.now.columns }
    requires other { other < set.now.columns }
    ensures { IsTrue result → row < set.now.rows → HaveSame set.now row one other }
{
    mark(set, row, one) == mark(set, row, other)
}

/// The code of the column.
fn code(class: usize, set: &PairSet, row: usize, column: usize) -> usize
    requires class { class * 8 + 8 ≤ 2 ^ 64 }
    requires row { row + 3 < 2 ^ 64 }
    requires column { column < set.now.columns }
    ensures { IsCode set.now row column class result }
{
    let once = with_bit(class, mark(set, row, column));
    let twice = with_bit(once, mark(set, row + 1, column));
    with_bit(twice, mark(set, row + 2, column))
}

/// Whether the set has the pair. It has none of a row past its own.
fn mark(set: &PairSet, row: usize, column: usize) -> bool
    requires column { column < set.now.columns }
    ensures { IsMark set.now row column result }
{
    row < set.rows() && set.has(row, column)
}

/// The number with one more bit.
fn with_bit(number: usize, bit: bool) -> usize
    requires { 2 * number + 2 ≤ 2 ^ 64 }
    ensures value { result ≡ with_bit number bit }
    ensures below { result ≤ 2 * number + 1 }
{
    if bit { 2 * number + 1 } else { 2 * number }
}
