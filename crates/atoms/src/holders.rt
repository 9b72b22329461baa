//! For each place the numbers of the sets of a family that hold it, by which a set is told to be a union of sets of the family: each of
//! its places is in a set that lies within it. One holder is looked for at each place that no holder so far has, and the first place
//! without one ends this. Nothing is promised of the lists: each holder is asked whether it lies within the set.

ghost use Rattle.std.specs.Prelude.{IsTrue, IfOk, IfSome};
ghost use Rattle.bit_set.specs.Bits.{Has};
ghost use Rattle.atoms.specs.private.Family.{IsUnion, IsPart};

use bit_set::BitSet;
use std::alloc::{AllocError, Global};

/// Asking a holder, whose set is read from another place of the memory, counts as looking at so many words.
const WORDS_PER_HOLDER: usize = 4;

/// For each place the numbers of the sets that hold it, and how many words of these were looked at.
#[derive(Drop)]
pub struct Holders {
    lists: Vec<Vec<usize>>,
    looked: usize,
}

impl Holders {
    /// So many places that no set holds.
    pub fn new(alloc: Global, places: usize) -> Result<Holders, AllocError> {
        let mut lists = Vec::with_capacity(alloc, places)?;
        'places: for _ in 0..places {
            lists.push(Vec::new(alloc))?;
        }
        Ok(Holders { lists, looked: 0 })
    }

    /// Notes that the set with this number holds the places, which counts as looking at a word for each.
    pub fn add(&mut self, places: &[usize], number: usize) -> Result<(), AllocError> {
        'places: for place in places {
            add_at(&mut self.lists, *place, number)?;
        }
        self.looked = self.looked.saturating_add(places.len());
        Ok(())
    }

    /// How many words of holders were looked at.
    pub fn looked(&self) -> usize {
        self.looked
    }

    /// Whether sets that lie in this one have together all that it has. They are looked for at these places, which are its numbers or none.
    pub fn is_union(
        &mut self,
        alloc: Global,
        sets: &[BitSet],
        set: &BitSet,
        places: &[usize],
    ) -> Result<bool, AllocError>
        ensures { IfOk result (λ union. IsTrue union → IsUnion sets.now (Has set.now)) }
    {
        let mut union = BitSet::new(alloc, self.lists.len())?;
        'places: for place in places {
            if union.has(*place) {
                continue;
            }
            let Some(holder) = self.holder_within(*place, sets, set) else {
                return Ok(false);
            };
            union.add_all(&sets[holder]);
        }
        Ok(set.is_within(&union))
    }

    /// The number of a set that holds the place and lies within this one, if there is one.
    fn holder_within(&mut self, place: usize, sets: &[BitSet], set: &BitSet) -> Option<usize>
        ensures { IfSome result (IsPart sets.now set.now) }
    {
        if place >= self.lists.len() {
            return None;
        }
        first_within(&self.lists[place], sets, set, &mut self.looked)
    }
}

/// The first of the numbers whose set lies within this one. Counts the words that are looked at.
fn first_within(
    numbers: &[usize],
    sets: &[BitSet],
    set: &BitSet,
    looked: &mut usize,
) -> Option<usize>
    ensures { IfSome result (IsPart sets.now set.now) }
{
    'numbers: for number in numbers {
        *looked = looked.saturating_add(WORDS_PER_HOLDER);
        if *number >= sets.len() {
            continue;
        }
        if sets[*number].is_within(set) {
            return Some(*number);
        }
    }
    None
}

/// Adds the number to the list at the place, if there is one.
fn add_at(lists: &mut Vec<Vec<usize>>, place: usize, number: usize) -> Result<(), AllocError> {
    if place >= lists.len() {
        return Ok(());
    }
    let list: &mut Vec<usize> = &mut lists[place];
    list.push(number)?;
    Ok(())
}
