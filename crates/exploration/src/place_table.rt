//! A table of places in a list by the codes of what stands there. Codes are hashed by a multiplication (Knuth, The Art of Computer
//! Programming, volume 3, section 6.4) into slots, which are tried one after the other and of which at most half are taken; where the
//! slots would take as much memory as a place for each code, the table has a place for each code from then on. A look-up takes constant
//! time, on average, and the table memory linear in the places. Nothing is promised of what it answers: who looks something up compares
//! it with what stands at the place.

use std::alloc::{AllocError, Global};

/// So many codes have a place each for what one slot takes.
const CODES_IN_SLOT: usize = 4;

/// The slots of the first table of hashed codes.
const FIRST_SLOTS: usize = 64;

/// Stands where there is no place.
const NO_PLACE: u32 = u32::MAX;

/// An odd number near 2 to the 64 over the golden ratio.
const MULTIPLIER: usize = 0x9E37_79B9_7F4A_7C15;

/// A code with its place, or a free slot.
type Slot = (usize, u32);

/// Places by codes.
#[derive(Drop)]
pub(crate) struct PlaceTable {
    alloc: Global,
    codes: usize,
    dense: Vec<u32>,
    slots: Vec<Slot>,
}

impl PlaceTable {
    /// A table without a place, for codes below the number.
    pub(crate) fn new(alloc: Global, codes: usize) -> Result<PlaceTable, AllocError> {
        let mut table = PlaceTable {
            alloc,
            codes,
            dense: Vec::new(alloc),
            slots: Vec::new(alloc),
        };
        if codes / CODES_IN_SLOT <= FIRST_SLOTS {
            table.spread()?;
        }
        Ok(table)
    }

    /// The place of the code, or a number past all places.
    pub(crate) fn find(&self, code: usize) -> usize {
        if code < self.dense.len() {
            return self.dense[code] as usize;
        }
        let at = slot_of(self.slots.as_slice(), code);
        if at < self.slots.len() {
            return self.slots[at].1 as usize;
        }
        NO_PLACE as usize
    }

    /// The place of the code, or the next place, which is the code's from now on. More than 2 to the 32 places are out of memory.
    pub(crate) fn place_of(&mut self, code: usize, next: usize) -> Result<usize, AllocError> {
        if next >= NO_PLACE as usize {
            return Err(AllocError);
        }
        if next >= self.slots.len() / 2 && self.dense.is_empty() {
            self.grow()?;
        }
        Ok(self.take(code, next as u32) as usize)
    }

    /// The place of the code, or the next place, which is the code's from now on.
    fn take(&mut self, code: usize, next: u32) -> u32 {
        match self.dense.get_mut(code) {
            Some(place) => take_place(place, next),
            None => take_slot(self.slots.as_mut_slice(), code, next),
        }
    }

    /// Doubles the slots, or makes a place for each code where that takes no more memory.
    fn grow(&mut self) -> Result<(), AllocError> {
        let count = self.slots.len().saturating_mul(2).max(FIRST_SLOTS);
        if self.codes / CODES_IN_SLOT <= count {
            return self.spread();
        }
        self.double(count)
    }

    /// Makes a place for each code.
    fn spread(&mut self) -> Result<(), AllocError> {
        let mut dense = vec![in self.alloc; NO_PLACE; self.codes]?;
        'slots: for &(code, place) in &self.slots {
            if place != NO_PLACE && code < dense.len() {
                dense[code] = place;
            }
        }
        self.dense = dense;
        self.slots = Vec::new(self.alloc);
        Ok(())
    }

    /// Makes so many slots.
    fn double(&mut self, count: usize) -> Result<(), AllocError> {
        let mut slots = vec![in self.alloc; (0, NO_PLACE); count]?;
        'slots: for &(code, place) in &self.slots {
            if place != NO_PLACE {
                take_slot(slots.as_mut_slice(), code, place);
            }
        }
        self.slots = slots;
        Ok(())
    }
}

/// The place that stands there, or else the next one, which stands there from now on.
fn take_place(place: &mut u32, next: u32) -> u32 {
    if *place == NO_PLACE {
        *place = next;
    }
    *place
}

/// The place of the code, or else the next one, which is put into the first free slot for the code.
fn take_slot(slots: &mut [Slot], code: usize, next: u32) -> u32 {
    let at = slot_of(slots, code);
    if at >= slots.len() {
        return next;
    }
    if slots[at].1 == NO_PLACE {
        slots[at] = (code, next);
    }
    slots[at].1
}

/// The slot of the code, or else the first free one for it, or a number past all slots.
fn slot_of(slots: &[Slot], code: usize) -> usize {
    let mask = slots.len().saturating_sub(1);
    let mut at = (code.wrapping_mul(MULTIPLIER) >> 32) & mask;
    'slots: for _ in 0..slots.len() {
        if at >= slots.len() {
            return at;
        }
        let (held, place) = slots[at];
        if place == NO_PLACE || held == code {
            return at;
        }
        at = (at + 1) & mask;
    }
    slots.len()
}
