//! Classes of states by the sets of states into which words lead. A round adds the images of the sets that the round before it added, and
//! splits the classes by those that are new. The rounds end where one adds no set, or where one with many sets finds each state alone in
//! its class, and are given up where the sets are too large together. Each set is expanded once, in the time of the edges out of it
//! and the letters up to sorting short lists, and looked up by its hash.

ghost use Rattle.std.specs.Prelude.{◌≡◌, ◌<◌, ◌≤◌, ◌+◌, ℕ, All, IsTrue, IfOk, IfSome, OnOk, length, slice_index, slice_index_or, []};
ghost use Rattle.abstraction.specs.Merging.{AreClasses};
ghost use Rattle.abstraction.specs.Bounds.{up_to};
ghost use Rattle.past_abstraction.specs.Pasts.{is_related};
ghost use Rattle.past_abstraction.specs.private.WordSets.{HasEmptyLists, HasNoMarks, AreBlocksOf, AddsSet, AddsStates, AddsImages, AddsImagesOf, AreWordSets};

use crate::images::{all_states, empty_lists, no_marks, put_images, take_states};
use abstraction::{Partition, are_single};
use bit_set::BitSet;
use determinise::StateSet;
use indexmap::IndexSet;
use std::alloc::{AllocError, Global};
use word_automata::Dfa;

/// A round looks whether each state is alone where it has at least this part of as many sets as there are states.
const SINGLE_PART: usize = 4;

/// The rounds are given up where the sets that were gone on from have together so many states for each state.
const LOOKED_PER_STATE: usize = 1024;

/// The classes of states into which the same words of at most so many letters lead, or `None` where the sets of words are too many, which
/// promises nothing.
pub fn classes_by_word_sets(
    alloc: Global,
    a: &Dfa,
    bound: u64,
) -> Result<Option<Vec<usize>>, AllocError>
    ensures { IfOk result (λ found. IfSome found (λ classes. AreClasses (is_related (up_to bound) a.now) (length a.now.states)
        classes.items)) }
{
    let mut blocks = one_block(alloc, a)?;
    let mut sets = IndexSet::new(alloc);
    add_set(a, &mut sets, &mut blocks, all_states(alloc, a.states())?)?;
    classes_from(alloc, a, bound, &mut sets, &mut blocks)
}

/// The same, where the set of the word without letters is there.
fn classes_from(
    alloc: Global,
    a: &Dfa,
    bound: u64,
    sets: &mut IndexSet<StateSet>,
    blocks: &mut Partition,
) -> Result<Option<Vec<usize>>, AllocError>
    requires before { AreBlocksOf a.now sets.old.keys blocks.old }
    requires words { AreWordSets a.now 0 0 sets.old.keys }
    ensures { IfOk result (λ found. IfSome found (λ classes. AreClasses (is_related (up_to bound) a.now) (length a.now.states)
        classes.items)) }
{
    let mut lists = empty_lists(alloc, a.letters())?;
    let mut marks = no_marks(alloc, a)?;
    classes_by_rounds(alloc, a, bound, &mut lists, &mut marks, sets, blocks)
}

/// The same, in a round for each letter. The lists, one for each letter, are empty, and there is no mark.
fn classes_by_rounds(
    alloc: Global,
    a: &Dfa,
    bound: u64,
    lists: &mut Vec<Vec<usize>>,
    marks: &mut BitSet,
    sets: &mut IndexSet<StateSet>,
    blocks: &mut Partition,
) -> Result<Option<Vec<usize>>, AllocError>
    requires lists { HasEmptyLists a.now.letters lists.old.items }
    requires marks { HasNoMarks (length a.now.states) marks.old }
    requires before { AreBlocksOf a.now sets.old.keys blocks.old }
    requires words { AreWordSets a.now 0 0 sets.old.keys }
    ensures { IfOk result (λ found. IfSome found (λ classes. AreClasses (is_related (up_to bound) a.now) (length a.now.states)
        classes.items)) }
{
    let mut first = 0;
    let mut looked = 0;
    'rounds: for _ in 0..bound {
        let end = sets.len();
        if first == end {
            let stable = blocks.classes(alloc)?;
            return Ok(Some(stable));
        }
        if are_many(a, first, end) {
            let classes = blocks.classes(alloc)?;
            if are_single(&classes) {
                return Ok(Some(classes));
            }
        }
        let whole = add_images_from(alloc, a, lists, marks, sets, blocks, first, &mut looked)?;
        if !whole {
            return Ok(None);
        }
        first = end;
    }
    let last = blocks.classes(alloc)?;
    Ok(Some(last))
}

/// One block of all states.
fn one_block(alloc: Global, a: &Dfa) -> Result<Partition, AllocError>
    ensures { IfOk result (AreBlocksOf a.now []) }
{
    let none = vec![in alloc; 0; a.states()]?;
    let blocks = Partition::new(alloc, &none)?;
    Ok(blocks)
}

/// Whether the sets from the first one on and before the end cost more than to number the classes, which tells whether each state is
/// alone in its own. Nothing but time depends on it.
fn are_many(a: &Dfa, first: usize, end: usize) -> bool {
    end.saturating_sub(first) >= a.states() / SINGLE_PART
}

/// Whether so many states of sets are too many. Nothing but time depends on it.
fn are_too_many(a: &Dfa, looked: usize) -> bool {
    looked / LOOKED_PER_STATE > a.states()
}

/// How many states the set with this number has, which nothing is promised of.
fn size_of(sets: &IndexSet<StateSet>, number: usize) -> usize {
    match sets.as_slice().get(number) {
        Some(set) => set.as_slice().len(),
        None => 0,
    }
}

/// Adds the images of the sets from the first one on, and tells whether all were added before too many states of sets were looked at. The
/// lists, one for each letter, are empty before and after, and there is no mark.
fn add_images_from(
    alloc: Global,
    a: &Dfa,
    lists: &mut Vec<Vec<usize>>,
    marks: &mut BitSet,
    sets: &mut IndexSet<StateSet>,
    blocks: &mut Partition,
    first: usize,
    looked: &mut usize,
) -> Result<bool, AllocError>
    requires lists { HasEmptyLists a.now.letters lists.old.items }
    requires marks { HasNoMarks (length a.now.states) marks.old }
    requires before { AreBlocksOf a.now sets.old.keys blocks.old }
    ensures lists { OnOk result (HasEmptyLists a.now.letters lists.new.items) }
    ensures marks { OnOk result (HasNoMarks (length a.now.states) marks.new) }
    ensures blocks { OnOk result (AreBlocksOf a.now sets.new.keys blocks.new) }
    ensures images { IfOk result (λ whole. IsTrue whole → AddsImagesOf a.now first (length sets.old.keys) sets.old.keys sets.new.keys) }
{
    'sets: for number in first..sets.len() {
        *looked = looked.saturating_add(size_of(sets, number));
        if are_too_many(a, *looked) {
            return Ok(false);
        }
        add_images(alloc, a, lists, marks, sets, blocks, number)?;
    }
    Ok(true)
}

/// Adds the images of the set with this number. The lists, one for each letter, are empty before and after, and
/// there is no mark.
fn add_images(
    alloc: Global,
    a: &Dfa,
    lists: &mut Vec<Vec<usize>>,
    marks: &mut BitSet,
    sets: &mut IndexSet<StateSet>,
    blocks: &mut Partition,
    number: usize,
) -> Result<(), AllocError>
    requires within { number < length sets.old.keys }
    requires lists { HasEmptyLists a.now.letters lists.old.items }
    requires marks { HasNoMarks (length a.now.states) marks.old }
    requires before { AreBlocksOf a.now sets.old.keys blocks.old }
    ensures lists { OnOk result (HasEmptyLists a.now.letters lists.new.items) }
    ensures marks { OnOk result (HasNoMarks (length a.now.states) marks.new) }
    ensures blocks { OnOk result (AreBlocksOf a.now sets.new.keys blocks.new) }
    ensures images { OnOk result (AddsImages a.now (slice_index_or sets.old.keys number []) sets.old.keys sets.new.keys) }
{
    put_images(a, sets.as_slice()[number].as_slice(), lists)?;
    'letters: for letter in 0..lists.len() {
        let list: &mut Vec<usize> = &mut lists[letter];
        add_states(alloc, a, list, marks, sets, blocks)?;
    }
    Ok(())
}

/// Adds the states of the list as a set, if there are any, and empties the list. There is no mark before and after.
fn add_states(
    alloc: Global,
    a: &Dfa,
    list: &mut Vec<usize>,
    marks: &mut BitSet,
    sets: &mut IndexSet<StateSet>,
    blocks: &mut Partition,
) -> Result<(), AllocError>
    requires states { All (λ state. state < length a.now.states) list.old.items }
    requires marks { HasNoMarks (length a.now.states) marks.old }
    requires before { AreBlocksOf a.now sets.old.keys blocks.old }
    ensures cleared { OnOk result (list.new.items ≡ []) }
    ensures marks { OnOk result (HasNoMarks (length a.now.states) marks.new) }
    ensures blocks { OnOk result (AreBlocksOf a.now sets.new.keys blocks.new) }
    ensures set { OnOk result (AddsStates list.old.items sets.old.keys sets.new.keys) }
{
    if list.is_empty() {
        return Ok(());
    }
    let set = take_states(alloc, a, list, marks)?;
    add_set(a, sets, blocks, set)?;
    Ok(())
}

/// Adds the set, unless it is there, and splits the blocks by it where it is new.
fn add_set(
    a: &Dfa,
    sets: &mut IndexSet<StateSet>,
    blocks: &mut Partition,
    set: StateSet,
) -> Result<(), AllocError>
    requires states { All (λ state. state < length a.now.states) set }
    requires before { AreBlocksOf a.now sets.old.keys blocks.old }
    ensures blocks { OnOk result (AreBlocksOf a.now sets.new.keys blocks.new) }
    ensures set { OnOk result (AddsSet set sets.old.keys sets.new.keys) }
{
    let (number, is_new) = sets.insert_full(set)?;
    if is_new {
        blocks.refine(sets.as_slice()[number].as_slice())?;
    }
    Ok(())
}
