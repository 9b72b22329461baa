//! Why a protocol has no system.
//! A fault keeps the name at which it stands, with its place. What is printed of it is made by the program; here it shows as its variant.

ghost use Rattle.std.specs.Prelude.{◌≡◌};
ghost use Rattle.protocol_model.specs.declared.fault.ModelFault.TheVariants.{Memory};

use protocol_syntax::Name;
use std::alloc::{AllocError, AllocFailed};
use std::error::Error;
use std::fmt;

/// The first fault of a protocol, with the name at which it stands.
#[derive(Drop, Debug)]
pub enum ModelFault {
    /// The name stands for an earlier item of the same kind.
    Duplicate {
        /// The later of the two names.
        name: Name,
    },
    /// There is no section, or no letter of the section, of this name.
    Unknown {
        /// The name.
        name: Name,
    },
    /// An earlier step of the rule names the same section.
    TouchedTwice {
        /// The section's name in the later step.
        name: Name,
    },
    /// The move does not belong to the kind of its section.
    WrongKind {
        /// The section's name.
        name: Name,
    },
    /// There is no memory for the system.
    Memory,
}

impl From<AllocError> for ModelFault {
    ghost from_gives = { λ _ e. e ≡ Memory };

    fn from(_e: AllocError) -> ModelFault {
        ModelFault::Memory
    }
}

impl<T: Drop> From<AllocFailed<T>> for ModelFault {
    ghost from_gives = { λ _ e. e ≡ Memory };

    fn from(_e: AllocFailed<T>) -> ModelFault {
        ModelFault::Memory
    }
}

impl fmt::Display for ModelFault {
    fn fmt<W: fmt::Write>(&self, f: &mut fmt::Formatter<W>) -> fmt::Result {
        fmt::Debug::fmt(self, f)
    }
}

impl Error for ModelFault {}
