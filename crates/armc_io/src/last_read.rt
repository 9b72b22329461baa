//! The last call of a library: its name, whether it failed, and how many bytes it took.
//! It costs a copy of the name.

ghost use Rattle.std.specs.Prelude.{◌≡◌, string_bytes};

use std::marker::Model;

/// A call of `read_all`: its name, whether it answered `Failed`, and how many bytes it took.
#[derive(Drop)]
pub(crate) struct LastRead {
    name: String,
    has_failed: bool,
    taken: u64,
}

impl Model for LastRead {
    ghost use Rattle.std.specs.Prelude.{string_bytes};
    ghost use Rattle.armc_io.specs.Library.{ReadCall};

    ghost Value = { ReadCall };

    ghost view = { λ call. record { name = string_bytes call.name; has_failed = call.has_failed; taken = call.taken } };
}

impl LastRead {
    /// A call by this name, which answered `Failed` or did not, and took so many bytes.
    pub(crate) fn new(name: String, has_failed: bool, taken: u64) -> LastRead
        ensures { result ≡ record { name = string_bytes name; has_failed = has_failed; taken = taken } }
    {
        LastRead {
            name,
            has_failed,
            taken,
        }
    }
}
