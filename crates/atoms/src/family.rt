//! A family of sets of states of which every atom is a union: the accepting states, and with each set those from which a letter leads
//! into it, without those that are unions of sets of the family. Since preimages of unions are unions of preimages, what is left out
//! need not be gone on from. A set costs its edges, and while many are unions a comparison with sets of the family that hold its places.

ghost use Rattle.std.specs.Prelude.{◌≡◌, ◌<◌, [], ℕ, IfOk, OnOk, length, slice_index_or};
ghost use Rattle.bit_set.specs.Bits.{Has};
ghost use Rattle.bit_set.specs.SetLists.{AreEmpty};
ghost use Rattle.atoms.specs.private.Adding.{IsListed};
ghost use Rattle.atoms.specs.private.Family.{IsUnion, AreUnions, AddsUnion, AddsUnions, AddsPreimages, IsEmptied};

use crate::holders::Holders;
use crate::preimages::add_preimages;
use crate::turned_edges::EdgesInto;
use bit_set::BitSet;
use indexmap::IndexSet;
use std::alloc::{AllocError, Global};

/// So many sets are each tested for being a union. Later ones are only while more than half were unions.
const ALWAYS_ASKED: usize = 1024;

/// The sets of the family, all that were seen, each a union of these, by which sets this is told, and how many edges and words were
/// looked at.
#[derive(Drop)]
pub struct Family {
    pub sets: Vec<BitSet>,
    pub seen: IndexSet<BitSet>,
    holders: Holders,
    looked: usize,
}

impl Family {
    /// The family of one set.
    pub fn new(alloc: Global, set: &BitSet, places: usize) -> Result<Family, AllocError>
        ensures seen { IfOk result (λ family. AreUnions family.sets.items family.seen.keys) }
        ensures union { IfOk result (λ family. IsUnion family.sets.items (Has set.now)) }
    {
        let mut family = Family {
            sets: Vec::new(alloc),
            seen: IndexSet::new(alloc),
            holders: Holders::new(alloc, places)?,
            looked: 0,
        };
        family.add(alloc, set)?;
        Ok(family)
    }

    /// Adds the set, unless it was seen or is told to be a union of sets of the family.
    fn add(&mut self, alloc: Global, set: &BitSet) -> Result<(), AllocError>
        requires { AreUnions self.old.sets.items self.old.seen.keys }
        ensures seen { OnOk result (AreUnions self.new.sets.items self.new.seen.keys) }
        ensures added { OnOk result (AddsUnion self.old.sets.items self.new.sets.items (Has set.now)) }
    {
        if self.seen.contains(set) {
            return Ok(());
        }
        let copy = set.copy(alloc)?;
        self.seen.insert(copy)?;
        let places = self.places_asked(alloc, set)?;
        if self.holders.is_union(alloc, &self.sets, set, &places)? {
            return Ok(());
        }
        self.holders.add(&places, self.sets.len())?;
        let last = set.copy(alloc)?;
        self.sets.push(last)?;
        Ok(())
    }

    /// Whether enough of the sets that were seen are unions for it to be worth asking.
    fn asks_for_unions(&self) -> bool {
        self.seen.len() <= ALWAYS_ASKED || self.sets.len() < self.seen.len() / 2
    }

    /// The numbers of the set, or none where it is not worth asking whether it is a union.
    fn places_asked(&self, alloc: Global, set: &BitSet) -> Result<Vec<usize>, AllocError> {
        if !self.asks_for_unions() {
            return Ok(Vec::new(alloc));
        }
        set.numbers(alloc)
    }

    /// How many edges and words of sets were looked at.
    pub fn work(&self) -> usize {
        self.looked.saturating_add(self.holders.looked())
    }

    /// Adds the set, if it has a number, and takes its numbers out.
    fn take(&mut self, alloc: Global, set: &mut BitSet) -> Result<(), AllocError>
        requires { AreUnions self.old.sets.items self.old.seen.keys }
        ensures seen { OnOk result (AreUnions self.new.sets.items self.new.seen.keys) }
        ensures added { OnOk result (AddsUnion self.old.sets.items self.new.sets.items (Has set.old)) }
        ensures none { OnOk result ((k : ℕ) → Has set.new k → ⊥) }
        ensures room { OnOk result (length set.new ≡ length set.old) }
    {
        if set.is_empty() {
            return Ok(());
        }
        self.add(alloc, set)?;
        set.clear();
        Ok(())
    }

    /// Adds each of the sets that has a number, and takes their numbers out.
    fn take_each(&mut self, alloc: Global, sets: &mut Vec<BitSet>) -> Result<(), AllocError>
        requires { AreUnions self.old.sets.items self.old.seen.keys }
        ensures seen { OnOk result (AreUnions self.new.sets.items self.new.seen.keys) }
        ensures added { OnOk result (AddsUnions self.old.sets.items self.new.sets.items sets.old.items (length sets.old.items)) }
        ensures none { OnOk result (IsEmptied sets.old.items sets.new.items) }
    {
        'sets: for at in 0..sets.len() {
            let set: &mut BitSet = &mut sets[at];
            self.take(alloc, set)?;
        }
        Ok(())
    }

    /// Adds the preimages of the set with this number. The sets, one for each letter, are empty before and after.
    pub fn expand(
        &mut self,
        alloc: Global,
        into: &[EdgesInto],
        used: &[usize],
        preimages: &mut Vec<BitSet>,
        number: usize,
    ) -> Result<(), AllocError>
        requires within { number < length self.old.sets.items }
        requires unions { AreUnions self.old.sets.items self.old.seen.keys }
        requires empty { AreEmpty (length preimages.old.items) (length used.now) preimages.old.items }
        requires sources { (p a j : ℕ) → IsListed into.now p (a, j) → j < length used.now }
        ensures seen { OnOk result (AreUnions self.new.sets.items self.new.seen.keys) }
        ensures empty { OnOk result (AreEmpty (length preimages.old.items) (length used.now) preimages.new.items) }
        ensures added { OnOk result (AddsPreimages into.now used.now (slice_index_or self.old.sets.items number [])
            (length preimages.old.items) self.old.sets.items self.new.sets.items) }
    {
        let places = self.sets[number].numbers(alloc)?;
        let looked = add_preimages(preimages, into, used, &places);
        let words = preimages.len().saturating_mul(used.len() / 64 + 1);
        self.looked = self.looked.saturating_add(looked).saturating_add(words);
        self.take_each(alloc, preimages)?;
        Ok(())
    }
}
