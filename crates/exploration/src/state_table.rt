//! The states that a construction has found, each once, in a table of slots that are tried one after the other (linear probing: Knuth, The
//! Art of Computer Programming, volume 3, section 6.4). A look-up and an insertion take constant time, on average, and the table memory
//! linear in the states: at most half of the slots are taken, and one of 8 bytes tells nearly always whether a state stands at its place.

ghost use Rattle.std.specs.Prelude.{◌≡◌, ◌<◌, ◌+◌, ◌^◌, ℕ, ◌++◌, ◌∷◌, [], true, length, slice_get, Some, IfOk, IfSome, IfNone, OnOk};
ghost use Rattle.exploration.specs.private.NumberHasher.{hash_by};
ghost use Rattle.exploration.specs.private.StateTable.{code_of, slot_of, KeepsSlots, IsFreeSlot, IsTable, StandsInSlot};

use crate::found_states::stands_at;
use std::alloc::{AllocError, Global};
use std::hash::Hash;
use std::marker::Model;

/// The slots of the first table.
const FIRST_SLOTS: usize = 64;

/// So many codes there are.
const CODES: u64 = 1 << 32;

/// The code of a state, and one more than its place; 0 beside it where the slot is free.
type Slot = (u32, u32);

/// The states that were found, each once. The place of a state is the number of states before it.
#[derive(Drop)]
pub(crate) struct StateTable<S: Hash> {
    alloc: Global,
    states: Vec<S>,
    slots: Vec<Slot>,
}

impl<S: Hash> Model for StateTable<S> {
    ghost use Rattle.std.specs.Prelude.{List};
    ghost use Rattle.exploration.specs.private.NumberHasher.{hash_by};
    ghost use Rattle.exploration.specs.private.StateTable.{IsTable};

    ghost Value = { List S };

    ghost view = { λ t. t.states.items };

    ghost invariant = { λ t. IsTable (hash_by S.hash_input) t.states.items t.slots.items };
}

impl<S: Hash + Drop> StateTable<S> {
    /// No state yet. It takes no memory.
    pub(crate) fn new(alloc: Global) -> StateTable<S>
        ensures { result ≡ [] }
    {
        StateTable {
            alloc,
            states: Vec::new(alloc),
            slots: Vec::new(alloc),
        }
    }

    /// The states, in the order in which they were found.
    pub(crate) fn as_slice(&self) -> &[S]
        ensures { result.now ≡ self.now }
    {
        self.states.as_slice()
    }

    /// The place of the state, which has this hash.
    pub(crate) fn find(&self, hash: u64, state: &S) -> Option<usize>
        requires equality { (x y : S) → S.eq x y ≡ true → x ≡ y }
        requires hash { hash ≡ hash_by S.hash_input state.now }
        ensures found { IfSome result (λ place. slice_get self.now place ≡ Some state.now) }
        ensures absent { IfNone result ((r : ℕ) → slice_get self.now r ≡ Some state.now → ⊥) }
    {
        find_place(self.slots.as_slice(), self.states.as_slice(), hash, state)
    }

    /// Adds the state, which has this hash, at the end. `AllocError` where memory runs out, or where there are 4,294,967,295 states.
    pub(crate) fn push(&mut self, hash: u64, state: S) -> Result<(), AllocError>
        requires hash { hash ≡ hash_by S.hash_input state }
        ensures { OnOk result (self.new ≡ self.old ++ state ∷ []) }
    {
        add_place(self.alloc, &mut self.slots, hash, self.states.len())?;
        self.states.push(state)?;
        Ok(())
    }
}

/// The place of the state, which has this hash.
fn find_place<S: Hash>(slots: &[Slot], states: &[S], hash: u64, state: &S) -> Option<usize>
    requires equality { (x y : S) → S.eq x y ≡ true → x ≡ y }
    requires hash { hash ≡ hash_by S.hash_input state.now }
    requires table { IsTable (hash_by S.hash_input) states.now slots.now }
    ensures found { IfSome result (λ place. slice_get states.now place ≡ Some state.now) }
    ensures absent { IfNone result ((r : ℕ) → slice_get states.now r ≡ Some state.now → ⊥) }
{
    let code = code_of(hash);
    'steps: for step in 0..slots.len() {
        let (held, number) = slots[slot_of(slots, code, step)];
        if number == 0 {
            return None;
        }
        let place = number as usize - 1;
        if held == code && stands_at(states, place, state) {
            return Some(place);
        }
    }
    None
}

/// The code of a state with this hash.
fn code_of(hash: u64) -> u32
    ensures { result ≡ code_of hash }
{
    (hash % CODES) as u32
}

/// The slot of the code after so many steps.
fn slot_of(slots: &[Slot], code: u32, step: usize) -> usize
    requires { step < length slots.now }
    ensures is { result ≡ slot_of (length slots.now) code step }
    ensures within { result < length slots.now }
{
    (code as usize + step) & (slots.len() - 1)
}

/// Puts the next place into a slot for the hash of its state. `AllocError` where memory runs out, or where the place is 4,294,967,295.
fn add_place(
    alloc: Global,
    slots: &mut Vec<Slot>,
    hash: u64,
    place: usize,
) -> Result<(), AllocError>
    ensures kept { KeepsSlots slots.old.items slots.new.items }
    ensures stands { OnOk result (StandsInSlot slots.new.items (code_of hash) (place + 1)) }
{
    let number = number_of(place)?;
    make_room(alloc, slots, place)?;
    put(slots, code_of(hash), number)
}

/// The number of the place, one more than it. `AllocError` where it has more than 32 bits.
fn number_of(place: usize) -> Result<u32, AllocError>
    ensures { IfOk result (λ number. number ≡ place + 1) }
{
    if place >= u32::MAX as usize {
        return Err(AllocError);
    }
    Ok(place as u32 + 1)
}

/// Makes room for one more than so many places: twice as many slots where half of them are taken.
fn make_room(alloc: Global, slots: &mut Vec<Slot>, count: usize) -> Result<(), AllocError>
    ensures { KeepsSlots slots.old.items slots.new.items }
{
    if count < slots.len() / 2 {
        return Ok(());
    }
    *slots = enlarged(alloc, slots.as_slice())?;
    Ok(())
}

/// What stands in the slots, in twice as many.
fn enlarged(alloc: Global, slots: &[Slot]) -> Result<Vec<Slot>, AllocError>
    ensures { IfOk result (λ more. KeepsSlots slots.now more.items) }
{
    let count = slots.len().saturating_mul(2).max(FIRST_SLOTS);
    let mut more = vec![in alloc; (0u32, 0u32); count]?;
    'old: for &(code, number) in slots {
        if number == 0 {
            continue;
        }
        put(&mut more, code, number)?;
    }
    Ok(more)
}

/// Puts the code and the number, which is not 0, into the first free slot for the code. `AllocError` where no slot is free.
fn put(slots: &mut Vec<Slot>, code: u32, number: u32) -> Result<(), AllocError>
    requires { 0 < number }
    ensures kept { KeepsSlots slots.old.items slots.new.items }
    ensures stands { OnOk result (StandsInSlot slots.new.items code number) }
{
    let slot = free_slot(slots.as_slice(), code)?;
    slots[slot] = (code, number);
    Ok(())
}

/// The first free slot for the code. `AllocError` where no slot is free.
fn free_slot(slots: &[Slot], code: u32) -> Result<usize, AllocError>
    ensures { IfOk result (IsFreeSlot slots.now code) }
{
    'steps: for step in 0..slots.len() {
        let slot = slot_of(slots, code, step);
        if slots[slot].1 == 0 {
            return Ok(slot);
        }
    }
    Err(AllocError)
}
