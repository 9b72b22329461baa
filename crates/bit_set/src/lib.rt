//! Sets of numbers below a bound, a bit for each number, in words of 64 bits (Knuth, The Art of Computer Programming, volume 4A,
//! section 7.1.3). A call on whole sets takes time linear in their words, and memory only where it makes a set or a list.
#![tactic(auto)]

mod set_lists;
mod words;

ghost use Rattle.std.specs.Prelude.{◌≡◌, ◌↔◌, ◌⊎◌, ◌<◌, ◌≤◌, ◌*◌, ◌+◌, ◌/◌, [], ℕ, List, Contains, IsTrue, IfOk, OnOk, length, nat_eq, slice_index, slice_index_or};
ghost use Rattle.std.specs.Cmp.{partial_equiv_from_equiv};
ghost use Rattle.std.specs.Cmp.Lexicographic.{pointwise, bytes_decides, nat_list_eq_equiv};
ghost use Rattle.std.specs.Hash as fed;
ghost use Rattle.std.proofs.Common.{ap};
ghost use Rattle.bit_set.specs.Bits.{Has};
ghost use Rattle.bit_set.specs.Digest.{digest};
ghost use Rattle.bit_set.specs.private.Words.{HasBit, IsWordOfAll};

use crate::words::{common_bits, digest, has_bit, is_part, lowest_bit, with_bit, without_bit};
pub use set_lists::{empty_sets, insert_at, insert_with_room, sets_without_room};
use std::alloc::{AllocError, Global};
use std::hash::{Hash, Hasher};
use std::marker::Model;

/// A set of numbers. Two are equal exactly where their words are.
#[derive(Drop)]
pub struct BitSet {
    words: Vec<u64>,
}

impl Model for BitSet {
    ghost use Rattle.std.specs.Prelude.{List, ℕ, ◌≤◌, length};

    ghost Value = { List ℕ };

    ghost view = { λ s. s.words.items };

    ghost invariant = { λ s. length s.words.items ≤ 288230376151711744 };
}

impl BitSet {
    /// No number, with room for those below `count`.
    pub fn new(alloc: Global, count: usize) -> Result<BitSet, AllocError>
        ensures none { IfOk result (λ set. (k : ℕ) → Has set k → ⊥) }
        ensures room { IfOk result (λ set. length set ≡ count / 64 + 1) }
    {
        Ok(BitSet {
            words: vec![in alloc; 0u64; count / 64 + 1]?,
        })
    }

    /// No number, and room for none. It takes no memory.
    pub fn without_room(alloc: Global) -> BitSet
        ensures { (k : ℕ) → Has result k → ⊥ }
    {
        BitSet {
            words: Vec::new(alloc),
        }
    }

    /// Makes room for the numbers that the empty set has room for, as a copy of it where there is none. `AllocError` where memory runs out.
    pub fn make_room(&mut self, alloc: Global, empty: &BitSet) -> Result<(), AllocError>
        requires { (k : ℕ) → Has empty.now k → ⊥ }
        ensures same { OnOk result ((k : ℕ) → Has self.new k ↔ Has self.old k) }
        ensures room { OnOk result (length empty.now ≤ length self.new) }
    {
        if self.words.len() >= empty.words.len() {
            return Ok(());
        }
        let mut wide = empty.copy(alloc)?;
        wide.add_all(self);
        *self = wide;
        Ok(())
    }

    /// Whether the set has the number.
    pub fn has(&self, number: usize) -> bool
        ensures { IsTrue result ↔ Has self.now number }
    {
        has_bit(self.word(number / 64), number % 64)
    }

    /// Adds the number, if there is room for it.
    pub fn insert(&mut self, number: usize)
        ensures only { (k : ℕ) → Has self.new k → Has self.old k ⊎ (k ≡ number) }
        ensures kept { (k : ℕ) → Has self.old k → Has self.new k }
        ensures added { number < 64 * length self.old → Has self.new number }
        ensures room { length self.new ≡ length self.old }
    {
        let at = number / 64;
        if at < self.words.len() {
            self.words[at] = with_bit(self.words[at], number % 64);
        }
    }

    /// Takes out the number.
    pub fn remove(&mut self, number: usize)
        ensures taken { Has self.new number → ⊥ }
        ensures kept { (k : ℕ) → Has self.old k → (k ≡ number → ⊥) → Has self.new k }
        ensures only { (k : ℕ) → Has self.new k → Has self.old k }
        ensures room { length self.new ≡ length self.old }
    {
        if !self.has(number) {
            return;
        }
        let at = number / 64;
        self.words[at] = without_bit(self.words[at], number % 64);
    }

    /// Adds the numbers of the other set that there is room for.
    pub fn add_all(&mut self, other: &BitSet)
        ensures only { (k : ℕ) → Has self.new k → Has self.old k ⊎ Has other.now k }
        ensures kept { (k : ℕ) → Has self.old k → Has self.new k }
        ensures added { length other.now ≤ length self.old → (k : ℕ) → Has other.now k → Has self.new k }
        ensures room { length self.new ≡ length self.old }
    {
        let count = self.words.len().min(other.words.len());
        'words: for at in 0..count {
            self.words[at] |= other.words[at];
        }
    }

    /// Whether the other set has each number of this one.
    pub fn is_within(&self, other: &BitSet) -> bool
        ensures { IsTrue result ↔ ((k : ℕ) → Has self.now k → Has other.now k) }
    {
        'words: for at in 0..self.words.len() {
            if !is_part(self.words[at], other.word(at)) {
                return false;
            }
        }
        true
    }

    /// Whether the sets have a number in common.
    pub fn meets(&self, other: &BitSet) -> bool
        ensures { IsTrue result ↔ ((k : ℕ) × Has self.now k × Has other.now k) }
    {
        'words: for at in 0..self.words.len() {
            if common_bits(self.words[at], other.word(at)) != 0 {
                return true;
            }
        }
        false
    }

    /// Whether the set has what the sets at the places have together. Places past the sets have none. It takes no memory.
    pub fn is_union(&self, sets: &[BitSet], places: &[usize]) -> bool
        ensures only { IsTrue result → (k : ℕ) → Has self.now k
            → (p : ℕ) × Contains places.now p × Has (slice_index_or sets.now p []) k }
        ensures all { IsTrue result → (p k : ℕ) → Contains places.now p
            → Has (slice_index_or sets.now p []) k → Has self.now k }
    {
        if !fit(sets, places, self.words.len()) {
            return false;
        }
        'words: for at in 0..self.words.len() {
            if self.words[at] != word_of_all(sets, places, at) {
                return false;
            }
        }
        true
    }

    /// Whether the set has no number.
    pub fn is_empty(&self) -> bool
        ensures { IsTrue result → (k : ℕ) → Has self.now k → ⊥ }
    {
        'words: for word in &self.words {
            if *word != 0 {
                return false;
            }
        }
        true
    }

    /// Takes out all numbers.
    pub fn clear(&mut self)
        ensures none { (k : ℕ) → Has self.new k → ⊥ }
        ensures room { length self.new ≡ length self.old }
    {
        'words: for at in 0..self.words.len() {
            self.words[at] = 0;
        }
    }

    /// An equal set.
    pub fn copy(&self, alloc: Global) -> Result<BitSet, AllocError>
        ensures { IfOk result (λ copy. copy ≡ self.now) }
    {
        Ok(BitSet {
            words: Vec::from_slice(alloc, &self.words)?,
        })
    }

    /// A number that most sets do not share.
    pub fn digest(&self) -> u64
        ensures { result ≡ digest self.now }
    {
        digest(self.words.as_slice())
    }

    /// The numbers, in increasing order.
    pub fn numbers(&self, alloc: Global) -> Result<Vec<usize>, AllocError>
        ensures { IfOk result (λ numbers. (k : ℕ) → Contains numbers.items k ↔ Has self.now k) }
    {
        let mut numbers = Vec::new(alloc);
        'words: for at in 0..self.words.len() {
            add_numbers(&mut numbers, at * 64, self.words[at])?;
        }
        Ok(numbers)
    }

    /// The numbers that both sets have, in increasing order.
    pub fn common_numbers(&self, alloc: Global, other: &BitSet) -> Result<Vec<usize>, AllocError>
        ensures { IfOk result (λ numbers. (k : ℕ) → Contains numbers.items k ↔ (Has self.now k × Has other.now k)) }
    {
        let mut numbers = Vec::new(alloc);
        'words: for at in 0..self.words.len() {
            let common = common_bits(self.words[at], other.word(at));
            add_numbers(&mut numbers, at * 64, common)?;
        }
        Ok(numbers)
    }

    /// The word at the place, which is 0 past the words.
    fn word(&self, at: usize) -> u64
        ensures { result ≡ slice_index self.now at }
    {
        if at < self.words.len() {
            self.words[at]
        } else {
            0
        }
    }

    /// How many words there are.
    fn word_count(&self) -> usize
        ensures { result ≡ length self.now }
    {
        self.words.len()
    }
}

/// Adds the numbers of the bits of the word, each more by `first`.
fn add_numbers(numbers: &mut Vec<usize>, first: usize, word: u64) -> Result<(), AllocError>
    requires { first + 64 ≤ 18446744073709551616 }
    ensures kept { OnOk result ((k : ℕ) → Contains numbers.old.items k → Contains numbers.new.items k) }
    ensures added { OnOk result ((i : ℕ) → i < 64 → HasBit word i → Contains numbers.new.items (first + i)) }
    ensures only { OnOk result ((k : ℕ) → Contains numbers.new.items k
        → Contains numbers.old.items k ⊎ ((i : ℕ) × (i < 64) × HasBit word i × (k ≡ first + i))) }
{
    let mut rest = word;
    'bits: while rest != 0 {
        let bit = lowest_bit(rest);
        numbers.push(first + bit)?;
        rest = without_bit(rest, bit);
    }
    Ok(())
}

/// Whether the sets at the places have at most so many words.
fn fit(sets: &[BitSet], places: &[usize], count: usize) -> bool
    ensures { IsTrue result → (p : ℕ) → Contains places.now p → length (slice_index_or sets.now p []) ≤ count }
{
    'places: for place in places {
        if *place < sets.len() && sets[*place].word_count() > count {
            return false;
        }
    }
    true
}

/// The word at the place of what the sets at the places have together.
fn word_of_all(sets: &[BitSet], places: &[usize], at: usize) -> u64
    ensures { IsWordOfAll sets.now places.now at result }
{
    let mut word = 0;
    'places: for place in places {
        if *place >= sets.len() {
            continue;
        }
        word |= sets[*place].word(at);
    }
    word
}

impl PartialEq for BitSet {
    ghost eq = { λ a b. pointwise nat_eq a b };

    ghost laws = { partial_equiv_from_equiv nat_list_eq_equiv };

    fn eq(&self, other: &BitSet) -> bool {
        self.words.as_slice() == other.words.as_slice()
    }
}

impl Eq for BitSet {
    ghost laws = { nat_list_eq_equiv };
}

impl Hash for BitSet {
    ghost hash_input = { λ s. fed.u64 (digest s) };

    ghost respects_eq = { λ x y e. ap (λ s. fed.u64 (digest s)) ((bytes_decides x y).0 e) };

    fn hash<H: Hasher>(&self, state: &mut H) {
        self.digest().hash(state);
    }
}
