//! Words of 64 bits as sets of numbers below 64, and the number by which a list of words is hashed (by multiplication, as in G. Fowler,
//! L. C. Noll and K.-P. Vo, 1991, with the upper half of each product over the lower one). Each call takes constant time for each word.

ghost use Rattle.std.specs.Prelude.{◌≡◌, ◌↔◌, ◌<◌, ◌+◌, ℕ, Contains, IsTrue, OnOk};
ghost use Rattle.bit_set.specs.Digest.{mixed, digest};
ghost use Rattle.bit_set.specs.private.Words.{HasBit, IsPart, AddsBit, TakesBit, AreCommonBits};

/// An odd number by which words are spread over 64 bits.
const MULTIPLIER: u64 = 11400714819323198485;

/// Whether the bit is set.
pub fn has_bit(word: u64, bit: usize) -> bool
    requires { bit < 64 }
    ensures { IsTrue result ↔ HasBit word bit }
{
    (word >> bit as u32) & 1 == 1
}

/// The word with one more bit.
pub fn with_bit(word: u64, bit: usize) -> u64
    requires { bit < 64 }
    ensures { AddsBit word bit result }
{
    word | 1u64 << bit as u32
}

/// The lowest bit of the word.
pub fn lowest_bit(word: u64) -> usize
    requires { 0 < word }
    ensures within { result < 64 }
    ensures bit { HasBit word result }
{
    word.trailing_zeros() as usize
}

/// The word without the bit.
pub fn without_bit(word: u64, bit: usize) -> u64
    requires within { bit < 64 }
    requires bit { HasBit word bit }
    ensures { TakesBit word bit result }
{
    word & !(1u64 << bit as u32)
}

/// The bits that both words have.
pub fn common_bits(word: u64, other: u64) -> u64
    ensures { AreCommonBits word other result }
{
    word & other
}

/// Whether the other word has each bit of this one.
pub fn is_part(word: u64, other: u64) -> bool
    ensures { IsTrue result ↔ IsPart word other }
{
    word & other == word
}

/// The number with one more word.
fn mixed(number: u64, word: u64) -> u64
    ensures { result ≡ mixed number word }
{
    let product = (number ^ word).wrapping_mul(MULTIPLIER);
    product ^ (product / 4_294_967_296)
}

/// A number that most lists of words do not share.
pub fn digest(words: &[u64]) -> u64
    ensures { result ≡ digest words.now }
{
    let mut number = 0;
    'words: for word in words {
        number = mixed(number, *word);
    }
    number
}
