//! A hasher for values that are made of a few numbers: a number of 64 bits costs an addition and a multiplication (rustc-hash, version 2,
//! 2024), other bytes are read eight at a time. Whoever picks the values can make them collide.

ghost use Rattle.std.specs.Prelude.{◌≡◌, ◌+◌, ◌<◌, ◌^◌, length, slice_index};
ghost use Rattle.exploration.specs.private.NumberHasher.{hash_by, mixed, word_at, write};

use std::hash::{Hash, Hasher};

/// An odd number by which numbers are spread over 64 bits.
const MULTIPLIER: u64 = 0xF135_7AEA_2E62_A9C5;

/// What has been written, as one number.
#[derive(Drop)]
pub(crate) struct NumberHasher {
    number: u64,
}

impl Hasher for NumberHasher {
    ghost use Rattle.exploration.specs.private.NumberHasher.{write, finish};

    ghost write = { write };

    ghost finish = { finish };

    fn finish(&self) -> u64 {
        self.number.rotate_left(26)
    }

    fn write(&mut self, bytes: &[u8]) {
        let mut number = self.number;
        let mut at = 0;
        'words: while at < bytes.len() {
            number = mixed(number, word_at(bytes, at));
            at += 8;
        }
        self.number = number;
    }

    fn write_u64(&mut self, i: u64) {
        self.number = mixed(self.number, i);
    }

    fn write_usize(&mut self, i: usize) {
        self.number = mixed(self.number, i as u64);
    }
}

/// The hash of the value.
pub(crate) fn hash_of<T: Hash>(value: &T) -> u64
    ensures { result ≡ hash_by T.hash_input value.now }
{
    let mut hasher = NumberHasher { number: 0 };
    value.hash(&mut hasher);
    hasher.finish()
}

/// The number with one more word.
fn mixed(number: u64, word: u64) -> u64
    ensures { result ≡ mixed number word }
{
    number.wrapping_add(word).wrapping_mul(MULTIPLIER)
}

/// The eight bytes from the place on, the lowest first, as one number.
fn word_at(bytes: &[u8], at: usize) -> u64
    requires { at < length bytes.now }
    ensures { result ≡ word_at bytes.now at }
{
    u64::from_le_bytes([
        bytes[at],
        byte_at(bytes, at + 1),
        byte_at(bytes, at + 2),
        byte_at(bytes, at + 3),
        byte_at(bytes, at + 4),
        byte_at(bytes, at + 5),
        byte_at(bytes, at + 6),
        byte_at(bytes, at + 7),
    ])
}

/// The byte at the place, 0 behind the last one.
fn byte_at(bytes: &[u8], at: usize) -> u8
    ensures { result ≡ slice_index bytes.now at }
{
    if at < bytes.len() { bytes[at] } else { 0 }
}
