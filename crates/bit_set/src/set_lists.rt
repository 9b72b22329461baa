//! Lists of sets of numbers, with room for the numbers below a bound from the start or from the first number of a set on. A call takes
//! time linear in the words that it makes.

ghost use Rattle.std.specs.Prelude.{◌≡◌, ◌+◌, ◌/◌, ℕ, IfOk, OnOk, length};
ghost use Rattle.bit_set.specs.Bits.{Has};
ghost use Rattle.bit_set.specs.SetLists.{Adds, AddsNumbers, AreEmpty, HasAt, IsInTable};

use crate::BitSet;
use std::alloc::{AllocError, Global};

/// So many empty sets, with room for the numbers below the bound.
pub fn empty_sets(alloc: Global, count: usize, bound: usize) -> Result<Vec<BitSet>, AllocError>
    ensures { IfOk result (λ sets. AreEmpty count bound sets.items) }
{
    let none = BitSet::new(alloc, bound)?;
    copies(alloc, &none, count)
}

/// So many copies of an empty set.
fn copies(alloc: Global, none: &BitSet, count: usize) -> Result<Vec<BitSet>, AllocError>
    requires { (k : ℕ) → Has none.now k → ⊥ }
    ensures { IfOk result (λ sets. (bound : ℕ) → length none.now ≡ bound / 64 + 1 → AreEmpty count bound sets.items) }
{
    let mut sets = Vec::with_capacity(alloc, count)?;
    'sets: for _ in 0..count {
        let set = none.copy(alloc)?;
        sets.push(set)?;
    }
    Ok(sets)
}

/// So many empty sets without room, which take no memory of their own.
pub fn sets_without_room(alloc: Global, count: usize) -> Result<Vec<BitSet>, AllocError>
    ensures count { IfOk result (λ sets. length sets.items ≡ count) }
    ensures none { IfOk result (λ sets. (k number : ℕ) → HasAt sets.items k number → ⊥) }
{
    let mut sets = Vec::with_capacity(alloc, count)?;
    'sets: for _ in 0..count {
        sets.push(BitSet::without_room(alloc))?;
    }
    Ok(sets)
}

/// Adds the number to the set at the place, if it is there and has room once it has that of the empty set. `AllocError` where memory runs
/// out.
pub fn insert_with_room(
    alloc: Global,
    sets: &mut Vec<BitSet>,
    empty: &BitSet,
    place: usize,
    number: usize,
) -> Result<(), AllocError>
    requires { (k : ℕ) → Has empty.now k → ⊥ }
    ensures { OnOk result (Adds HasAt (IsInTable (length empty.now)) (λ k x. (k ≡ place) × (x ≡ number)) sets.old.items sets.new.items) }
{
    if place >= sets.len() {
        return Ok(());
    }
    let set: &mut BitSet = &mut sets[place];
    set.make_room(alloc, empty)?;
    set.insert(number);
    Ok(())
}

/// Adds the number to the set at the place, if it is there and has room.
pub fn insert_at(sets: &mut Vec<BitSet>, place: usize, number: usize)
    ensures { AddsNumbers (λ k x. (k ≡ place) × (x ≡ number)) sets.old.items sets.new.items }
{
    if place >= sets.len() {
        return;
    }
    let set: &mut BitSet = &mut sets[place];
    set.insert(number);
}
