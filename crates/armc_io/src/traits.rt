//! What the program asks of the outside: a library of texts that are read by name, a sink that takes bytes, and a gate that is entered
//! before the image of each rule. The library and the sink say what they tell of their contents, and count their faults.

ghost use Rattle.std.specs.Prelude.{◌≡◌, ℕ, ◌^◌, ◌<◌, ◌≤◌, IsTrue, IsSome};
ghost use Rattle.armc_io.specs.Library.{LibraryState, ReadAnswers};
ghost use Rattle.armc_io.specs.Sink.{SinkState, PutAnswers, FitsWithoutFault};

use std::alloc::AllocError;

/// Why a read gave no bytes.
#[derive(Clone, Copy, PartialEq, Eq)]
pub enum ReadFail {
    /// The outside failed, and the fault was counted.
    Failed = 1,
    /// There are more bytes than the limit.
    TooLong = 2,
    /// There was no memory.
    Memory = 3,
}

impl From<AllocError> for ReadFail {
    ghost use Rattle.armc_io.specs.declared.traits.ReadFail.TheVariants.{Memory};

    ghost from_gives = { λ _ fail. fail ≡ Memory };

    fn from(_error: AllocError) -> ReadFail {
        ReadFail::Memory
    }
}

/// Why a sink did not take a whole piece.
#[derive(Clone, Copy, PartialEq, Eq)]
pub enum SinkFail {
    /// The outside failed, and the fault was counted.
    Failed = 1,
}

/// Texts that are read by their names.
pub trait Library {
    // The texts that are told, the count of faults, and the last call.
    ghost state: { Self → LibraryState };

    /// Reads all bytes of `name`, at most `limit` of them. `Failed` comes only with a counted fault, `TooLong` where there
    /// are more bytes than `limit`, and `Memory` where memory runs out.
    fn read_all(&mut self, name: &str, limit: u64) -> Result<Vec<u8>, ReadFail>
        requires { limit < 2 ^ 63 }
        ensures told { (state self.new).told ≡ (state self.old).told }
        ensures reliable { (state self.new).is_reliable ≡ (state self.old).is_reliable }
        ensures faults { (state self.old).faults ≤ (state self.new).faults }
        ensures answer { ReadAnswers (state self.old) (state self.new) name.now limit result }

        // A reliable library does not fail at a name that it tells.
        ensures no_fault { IsTrue (state self.old).is_reliable → IsSome ((state self.old).told name.now)
            → (state self.new).faults ≡ (state self.old).faults };
}

/// What takes bytes, one piece after another.
pub trait Sink {
    // The bytes that are told, the room that is guaranteed, and the count of faults.
    ghost state: { Self → SinkState };

    /// Appends all of `bytes`, and takes no memory. At `Failed` a prefix of them was appended, and a fault was counted.
    fn put(&mut self, bytes: &[u8]) -> Result<(), SinkFail>
        ensures faults { (state self.old).faults ≤ (state self.new).faults }
        ensures answer { PutAnswers (state self.old) (state self.new) bytes.now result }

        // A piece within the guaranteed room does not fail.
        ensures no_fault { FitsWithoutFault (state self.old) (state self.new) bytes.now };
}

/// What is asked before each image of a rule. It may be shared by threads.
pub trait Gate: Sync {
    /// Returns when the image of rule number `rule` may be made.
    fn enter(&self, rule: u32);
}

/// The gate that is always open.
#[derive(Clone, Copy)]
pub struct NoGate;

impl Gate for NoGate {
    fn enter(&self, _rule: u32) {}
}
