//! Pairs of states in the order in which they were added. A pair is looked up by its code in the table of places of the pairs that were
//! found, in constant time, on average. Once the pairs stay as they are, rows of bits tell most pairs that are not there before that,
//! and one list has the states above each state.

ghost use Rattle.std.specs.Prelude.{◌≡◌, ◌<◌, [], Contains, IsTrue, IfOk, OnOk, length, slice_index_or};

use exploration::FoundStates;
use std::alloc::{AllocError, Global};
use std::marker::Model;

/// So many states, or fewer, have pairs of different codes.
const STATES: usize = 1 << 32;

/// The bits of a word.
const BITS: usize = 64;

/// Rows of bits may have so many words,
const MOST_WORDS: usize = 1 << 20;

/// and at most so many for each pair and state.
const WORDS_OF_A_PAIR: usize = 16;

/// Pairs of states. One that was taken out became a pair of a state with itself, and is not found any more.
#[derive(Drop)]
pub struct StatePairs {
    alloc: Global,
    found: FoundStates<(usize, usize)>,
    /// For each state the place in `above` where the states above it begin, and at the end the number of all.
    firsts: Vec<usize>,
    /// The states above each state, state by state.
    above: Vec<usize>,
    /// For each state a bit for each state: whether they are a pair. There are none where they would take too much memory.
    bits: Vec<u64>,
    /// The words of a row of bits.
    words: usize,
    asked: usize,
}

impl Model for StatePairs {
    ghost use Rattle.std.specs.Prelude.{List, ℕ};

    ghost Value = { List (ℕ × ℕ) };

    ghost view = { λ s. s.found.states.items };
}

impl StatePairs {
    /// No pair, in constant time and without memory. `AllocError` where memory runs out.
    pub fn new(alloc: Global) -> Result<StatePairs, AllocError>
        ensures { IfOk result (λ pairs. pairs ≡ []) }
    {
        Ok(StatePairs {
            alloc,
            found: FoundStates::new(alloc, usize::MAX)?,
            firsts: Vec::new(alloc),
            above: Vec::new(alloc),
            bits: Vec::new(alloc),
            words: 0,
            asked: 0,
        })
    }

    /// The number of pairs that were added.
    pub fn len(&self) -> usize
        ensures { result ≡ length self.now }
    {
        self.found.len()
    }

    /// Counts that a pair was asked for.
    pub(crate) fn count_ask(&mut self) {
        self.asked = self.asked.saturating_add(1);
    }

    /// How often a pair was asked for.
    pub(crate) fn asked(&self) -> usize {
        self.asked
    }

    /// The pair that was added after so many others, or what it became.
    pub fn pair(&self, place: usize) -> (usize, usize)
        requires { place < length self.now }
        ensures { slice_index_or self.now place (0, 0) ≡ result }
    {
        self.found.states[place]
    }

    /// Whether the pair is there.
    pub(crate) fn contains(&self, low: usize, high: usize) -> bool
        ensures { IsTrue result → Contains self.now (low, high) }
    {
        if !self.may_contain(low, high) {
            return false;
        }
        match self.found.find(code(low, high), &(low, high)) {
            Some(_) => true,
            None => false,
        }
    }

    /// Whether the bits, if there are any, allow that the pair is there.
    fn may_contain(&self, low: usize, high: usize) -> bool {
        match self.bits.get(place_of(self.words, low, high)) {
            Some(word) => *word >> (high % BITS) & 1 == 1,
            None => true,
        }
    }

    /// Adds the pair, if it is not there. More than 2 to the 32 pairs are answered as running out of memory.
    pub(crate) fn add(&mut self, low: usize, high: usize) -> Result<(), AllocError> {
        let pair = (low, high);
        if self.found.look_up(code(low, high), &pair)?.is_none() {
            self.found.push(pair)?;
        }
        Ok(())
    }

    /// Takes out the pair at the place.
    pub(crate) fn take_out(&mut self, place: usize)
        requires { place < length self.old }
        ensures { length self.new ≡ length self.old }
    {
        let low = self.found.states[place].0;
        self.found.states[place] = (low, low);
    }

    /// Lists the states above each of so many states, and tells whether one of the first pairs is left.
    pub(crate) fn list_above(&mut self, count: usize, first: usize) -> Result<bool, AllocError>
        ensures { OnOk result (self.new ≡ self.old) }
    {
        let mut firsts = ends_of(self.alloc, &self.found.states, count)?;
        let mut above = vec![in self.alloc; 0usize; self.found.len()]?;
        let mut is_some = false;
        let mut place: usize = 0;
        'pairs: for &(low, high) in &self.found.states {
            if low != high {
                put_before(&mut above, &mut firsts, low, high);
                is_some = is_some || place < first;
            }
            place = place.saturating_add(1);
        }
        self.firsts = firsts;
        self.above = above;
        self.make_bits(count)?;
        Ok(is_some)
    }

    /// Makes the rows of bits of so many states, unless they would take too much memory.
    fn make_bits(&mut self, count: usize) -> Result<(), AllocError>
        ensures { OnOk result (self.new ≡ self.old) }
    {
        let words = count / BITS + 1;
        let total = words.saturating_mul(count);
        let most = self
            .found
            .len()
            .saturating_add(count)
            .saturating_mul(WORDS_OF_A_PAIR);
        if total > most.min(MOST_WORDS) {
            return Ok(());
        }
        let mut bits = vec![in self.alloc; 0u64; total]?;
        'pairs: for &(low, high) in &self.found.states {
            let place = place_of(words, low, high);
            if place < bits.len() {
                bits[place] |= 1 << (high % BITS);
            }
        }
        self.bits = bits;
        self.words = words;
        Ok(())
    }

    /// Whether the list of the states above the state has some.
    pub fn is_low(&self, state: usize) -> bool {
        !self.above(state).is_empty()
    }

    /// The states above the state, as they were listed.
    pub fn above(&self, state: usize) -> &[usize] {
        match self.firsts.get(state..) {
            Some([from, to, ..]) if *from <= *to && *to <= self.above.len() => {
                &self.above[*from..*to]
            }
            _ => &self.above[..0],
        }
    }
}

/// For each of so many states the number of pairs of different states whose first one is that state or one before it, and at the end
/// the number of all.
fn ends_of(
    alloc: Global,
    pairs: &[(usize, usize)],
    count: usize,
) -> Result<Vec<usize>, AllocError> {
    let mut ends = vec![in alloc; 0usize; count]?;
    'pairs: for &(low, high) in pairs {
        if low != high && low < ends.len() {
            ends[low] = ends[low].wrapping_add(1);
        }
    }
    let mut end: usize = 0;
    'states: for state in 0..ends.len() {
        end = end.wrapping_add(ends[state]);
        ends[state] = end;
    }
    ends.push(end)?;
    Ok(ends)
}

/// Puts the state before those that were put into the list of the state `low`.
fn put_before(above: &mut Vec<usize>, firsts: &mut Vec<usize>, low: usize, high: usize) {
    if low < firsts.len() {
        let place = firsts[low].wrapping_sub(1);
        if place < above.len() {
            above[place] = high;
            firsts[low] = place;
        }
    }
}

/// The place of the word with the bit of the pair, in rows of so many words.
fn place_of(words: usize, low: usize, high: usize) -> usize {
    low.saturating_mul(words).saturating_add(high / BITS)
}

/// The code of the pair.
fn code(low: usize, high: usize) -> usize {
    low.wrapping_mul(STATES) ^ high
}
