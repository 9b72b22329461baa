//! Why a text is refused.
//! What the program prints of a fault is made by the program.

ghost use Rattle.std.specs.Prelude.{◌≡◌};
ghost use Rattle.certificate.specs.declared.fault.CertFault.TheVariants.{Memory};

use std::alloc::AllocError;

/// Why a text is no certificate, with the number of the first line that has a fault. Lines are counted from 1.
#[derive(Clone, Copy)]
pub enum CertFault {
    /// The first line is that of another version.
    Version {
        /// The number of the line.
        line: u64,
    },
    /// The line does not have a layout that may stand there.
    BadLine {
        /// The number of the line.
        line: u64,
    },
    /// The line names what the system does not have.
    UnknownName {
        /// The number of the line.
        line: u64,
    },
    /// A state is not below the number of states, or an index of a letter not below the number of letters that have lines.
    OutOfRange {
        /// The number of the line.
        line: u64,
    },
    /// An edge has the source and letter of an earlier one, or an index stands twice in the line.
    TwoEdges {
        /// The number of the line.
        line: u64,
    },
    /// The text ends before the line feed of the line.
    Truncated {
        /// The number of the line.
        line: u64,
    },
    /// The text is that of a search that reached its budget.
    NothingToVerify {
        /// The number of the line.
        line: u64,
    },
    /// There are more than 1,000,000 states.
    TooMany {
        /// The number of the line.
        line: u64,
    },
    /// There is not enough memory.
    Memory,
    /// An earlier line names the same letter.
    TwoLetters {
        /// The number of the line.
        line: u64,
    },
}

impl From<AllocError> for CertFault {
    ghost from_gives = { λ _ e. e ≡ Memory };

    fn from(_e: AllocError) -> CertFault {
        CertFault::Memory
    }
}
