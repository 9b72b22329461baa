//! Sets of pairs of small numbers: a mark for each possible pair, and the pairs in the order in which they were added.
//! A pair is looked up and added in constant time; a set takes a byte for each possible pair.

ghost use Rattle.std.specs.Prelude.{◌≡◌, ◌↔◌, ◌<◌, [], true, Some, Contains, IfOk, OnOk, length, slice_get};
ghost use Rattle.predicate_abstraction.specs.private.Pairs.{AddsPairs};

use crate::place::place;
use std::alloc::{AllocError, Global};
use std::marker::Model;

/// A set of pairs of a row and a column.
#[derive(Drop)]
pub struct PairSet {
    rows: usize,
    columns: usize,
    marks: Vec<bool>,
    pairs: Vec<(usize, usize)>,
}

impl Model for PairSet {
    ghost use Rattle.predicate_abstraction.specs.private.Pairs.{Pairs, AreMarked};

    ghost Value = { Pairs };

    ghost view = { λ s. record { rows = s.rows; columns = s.columns; pairs = s.pairs.items } };

    ghost invariant = { λ s. AreMarked s.rows s.columns s.marks.items s.pairs.items };
}

impl PairSet {
    /// No pair of so many rows and columns.
    pub fn new(alloc: Global, rows: usize, columns: usize) -> Result<PairSet, AllocError>
        ensures { IfOk result (λ set. set ≡ record { rows = rows; columns = columns; pairs = [] }) }
    {
        let Some(places) = rows.checked_mul(columns) else {
            return Err(AllocError);
        };
        Ok(PairSet {
            rows,
            columns,
            marks: vec![in alloc; false; places]?,
            pairs: Vec::new(alloc),
        })
    }

    /// The number of rows.
    pub fn rows(&self) -> usize
        ensures { result ≡ self.now.rows }
    {
        self.rows
    }

    /// The number of pairs in the set.
    pub fn len(&self) -> usize
        ensures { result ≡ length self.now.pairs }
    {
        self.pairs.len()
    }

    /// The pair that was added after so many others.
    pub fn pair(&self, number: usize) -> (usize, usize)
        requires { number < length self.now.pairs }
        ensures pair { slice_get self.now.pairs number ≡ Some result }
        ensures row { result.0 < self.now.rows }
        ensures column { result.1 < self.now.columns }
    {
        let _ = &self.rows; // pairs are in range
        self.pairs[number]
    }

    /// Adds the pair, if it is not in the set.
    pub fn insert(&mut self, row: usize, column: usize) -> Result<(), AllocError>
        requires row { row < self.old.rows }
        requires column { column < self.old.columns }
        ensures { OnOk result (AddsPairs (λ pair. pair ≡ (row, column)) self.old self.new) }
    {
        let at = place(self.rows, self.columns, row, column);
        if !self.marks[at] {
            self.pairs.push((row, column))?;
            self.marks[at] = true;
        }
        Ok(())
    }

    /// Whether the pair is in the set.
    pub fn has(&self, row: usize, column: usize) -> bool
        requires row { row < self.now.rows }
        requires column { column < self.now.columns }
        ensures { (result ≡ true) ↔ Contains self.now.pairs (row, column) }
    {
        let at = place(self.rows, self.columns, row, column);
        self.marks[at]
    }
}
