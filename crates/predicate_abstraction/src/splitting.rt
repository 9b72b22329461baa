//! Classes of states, split by which states of a predicate automaton share a word with them. A split costs the walk that finds the pairs
//! of states that share a word, and time linear in the table of these pairs, whose rows it goes through until each state is alone.

ghost use Rattle.std.specs.Prelude.{◌+◌, ◌^◌, ◌<◌, IsTrue, IfOk, length};
ghost use Rattle.abstraction.specs.Partitions.{AreNumbers};
ghost use Rattle.predicate_abstraction.specs.private.SharedWords.{AreEdgesByTarget};
ghost use Rattle.predicate_abstraction.specs.private.Splitting.{IsSplit, IsSplitByRows};

use crate::codes::{codes, have_same_marks};
use crate::pair_set::PairSet;
use crate::predicate::Predicate;
use crate::shared_words::shared_words;
use abstraction::{are_single, first_states};
use std::alloc::{AllocError, Global};
use word_automata::Dfa;

/// Splits the classes of the states of `a`: those that were in one class stay in one where they share words with the same states of the
/// predicate automaton `b`. The edges of `a` are listed by their targets.
pub fn split_by_predicate(
    alloc: Global,
    classes: &[usize],
    a: &Dfa,
    into_a: &[Vec<(u32, usize)>],
    b: &Predicate,
) -> Result<Vec<usize>, AllocError>
    requires edges { AreEdgesByTarget a.now into_a.now (length a.now.states) }
    requires classes { AreNumbers (length a.now.states) classes.now }
    ensures { IfOk result (λ finer. IsSplit a.now b.now classes.now finer.items) }
{
    let shared = shared_words(alloc, b.as_dfa(), b.edges_into(), a, into_a)?;
    split_by_pairs(alloc, classes, &shared)
}

/// Splits the classes of the columns of the set by their rows.
fn split_by_pairs(alloc: Global, classes: &[usize], set: &PairSet) -> Result<Vec<usize>, AllocError>
    requires { AreNumbers set.now.columns classes.now }
    ensures { IfOk result (λ finer. IsSplitByRows set.now 0 set.now.rows classes.now finer.items) }
{
    let mut split = Vec::from_slice(alloc, classes)?;
    let mut row = 0;
    'rows: while row < set.rows() {
        if are_single(&split) {
            return Ok(split);
        }
        let Some(next) = row.checked_add(3) else {
            return Err(AllocError);
        };
        split = split_by_rows(alloc, &split, set, row)?;
        row = next;
    }
    Ok(split)
}

/// Splits the classes of the columns of the set by the row and the two behind it.
fn split_by_rows(
    alloc: Global,
    classes: &[usize],
    set: &PairSet,
    row: usize,
) -> Result<Vec<usize>, AllocError>
    requires classes { AreNumbers set.now.columns classes.now }
    requires row { row + 3 < 2 ^ 64 }
    ensures { IfOk result (λ finer. IsSplitByRows set.now row (row + 3) classes.now finer.items) }
{
    if are_whole(classes, set, row) {
        return Vec::from_slice(alloc, classes);
    }
    let codes = codes(alloc, classes, set, row)?;
    first_states(alloc, &codes)
}

/// Whether the row and the two behind it split no class: each column has the marks of the first one of its class.
fn are_whole(classes: &[usize], set: &PairSet, row: usize) -> bool
    requires classes { AreNumbers set.now.columns classes.now }
    requires row { row + 3 < 2 ^ 64 }
    ensures { IsTrue result → IsSplitByRows set.now row (row + 3) classes.now classes.now }
{
    'columns: for column in 0..classes.len() {
        if !have_same_marks(set, row, classes[column], column) {
            return false;
        }
    }
    true
}
