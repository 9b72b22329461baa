//! Why a call has no reply: the three ways in which reading a text or making one can end.
//! A failure owns the name of its text: it costs a copy of the name.

use sequence::Text;
use std::alloc::AllocError;

/// Why a call has no reply to its words.
#[derive(Drop)]
pub enum Failure {
    /// The text of this name could not be read.
    ReadFault(Text),
    /// The text of this name is longer than its limit.
    TooLong(Text),
    /// There was no memory.
    Memory,
}

impl From<AllocError> for Failure {
    ghost use Rattle.std.specs.Prelude.{◌≡◌};
    ghost use Rattle.command_replies.specs.declared.failure.Failure.TheVariants.{Memory};

    ghost from_gives = { λ _ failure. failure ≡ Memory };

    fn from(_error: AllocError) -> Failure {
        Failure::Memory
    }
}
