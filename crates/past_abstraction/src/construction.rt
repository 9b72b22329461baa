//! The construction of the automaton of pasts: its states are the sets of states from which words lead to one state, as the subset
//! construction of the reversed automaton finds them (M. O. Rabin and D. Scott, 1959). Each set is looked up by its hash and gone through
//! once, in the time of the edges into it and the letters up to sorting.

ghost use Rattle.std.specs.Prelude.{◌≡◌, ◌⊎◌, ◌≤◌, ◌<◌, ◌+◌, IfOk, OnOk, length};
ghost use Rattle.past_abstraction.specs.private.PastSets.{AreInAlphabet, AreExpanded, Continues, IsKnown, IsNew};
ghost use Rattle.past_abstraction.specs.private.WordSets.{HasEmptyLists};

use crate::images::take_sorted;
use crate::preimages::put_preimages;
use determinise::StateSet;
use exploration::Incoming;
use indexmap::IndexSet;
use std::alloc::{AllocError, Global};
use word_automata::RowBuilder;

/// Adds the edges of the states from the first one on, and the states that they lead to where they are new. The lists, one for each
/// letter, are empty before and after.
pub fn add_rows(
    alloc: Global,
    into: &Incoming,
    letters: u32,
    lists: &mut Vec<Vec<usize>>,
    sets: &mut IndexSet<StateSet>,
    builder: &mut RowBuilder,
    first: usize,
) -> Result<(), AllocError>
    requires within { first ≤ length sets.old.keys }
    requires alphabet { (builder.old.letters ≡ letters) × AreInAlphabet into.now letters }
    requires lists { HasEmptyLists letters lists.old.items }
    requires before { AreExpanded into.now builder.old sets.old.keys first 0 }
    ensures lists { OnOk result (HasEmptyLists letters lists.new.items) }
    ensures expanded { OnOk result (AreExpanded into.now builder.new sets.new.keys (length sets.old.keys) 0) }
    ensures continues { OnOk result (Continues first builder.old builder.new sets.old.keys sets.new.keys) }
{
    'states: for number in first..sets.len() {
        add_row(alloc, into, letters, lists, sets, builder, number)?;
    }
    Ok(())
}

/// Adds the edges of the state with this number, and the states that they lead to where they are new. The lists, one for each letter, are
/// empty before and after.
fn add_row(
    alloc: Global,
    into: &Incoming,
    letters: u32,
    lists: &mut Vec<Vec<usize>>,
    sets: &mut IndexSet<StateSet>,
    builder: &mut RowBuilder,
    number: usize,
) -> Result<(), AllocError>
    requires within { number < length sets.old.keys }
    requires alphabet { (builder.old.letters ≡ letters) × AreInAlphabet into.now letters }
    requires lists { HasEmptyLists letters lists.old.items }
    requires before { AreExpanded into.now builder.old sets.old.keys number 0 }
    ensures lists { OnOk result (HasEmptyLists letters lists.new.items) }
    ensures expanded { OnOk result (AreExpanded into.now builder.new sets.new.keys (number + 1) 0) }
    ensures continues { OnOk result (Continues number builder.old builder.new sets.old.keys sets.new.keys) }
{
    put_preimages(alloc, into, sets.as_slice()[number].as_slice(), lists)?;
    'letters: for letter in 0..letters {
        let list: &mut Vec<usize> = &mut lists[letter as usize];
        if list.is_empty() {
            continue;
        }
        let set = take_sorted(alloc, list)?;
        let to = number_of(sets, builder, set)?;
        builder.add_edge(number, letter, to)?;
    }
    Ok(())
}

/// The number of the set, which is that of a new state where it was not found before.
pub fn number_of(
    sets: &mut IndexSet<StateSet>,
    builder: &mut RowBuilder,
    set: StateSet,
) -> Result<usize, AllocError>
    ensures { IfOk result (λ number. IsKnown builder.old builder.new sets.old.keys sets.new.keys set number
        ⊎ IsNew builder.old builder.new sets.old.keys sets.new.keys set number) }
{
    let (number, is_new) = sets.insert_full(set)?;
    if is_new {
        builder.state(true)?;
    }
    Ok(number)
}
