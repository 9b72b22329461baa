//! Why a text is no configuration.
//! What the program prints of a fault is made by the program; here it shows as its variant.

ghost use Rattle.std.specs.Prelude.{◌≡◌};
ghost use Rattle.configuration_words.specs.declared.fault.ConfigFault.TheVariants.{Memory};

use protocol_lexer::Place;
use std::alloc::AllocError;
use std::error::Error;
use std::fmt;

/// The first fault of a text that is no configuration of a system.
#[derive(Clone, Copy, Debug)]
pub enum ConfigFault {
    /// The byte at this place is the first outside a comment that begins no token.
    BadByte { place: Place },
    /// The token at this place, or the end of the text, cannot stand there.
    Unexpected { place: Place },
    /// There is no memory for the configuration.
    Memory,
}

impl From<AllocError> for ConfigFault {
    ghost from_gives = { λ _ e. e ≡ Memory };

    fn from(_e: AllocError) -> ConfigFault {
        ConfigFault::Memory
    }
}

impl fmt::Display for ConfigFault {
    fn fmt<W: fmt::Write>(&self, f: &mut fmt::Formatter<W>) -> fmt::Result {
        fmt::Debug::fmt(self, f)
    }
}

impl Error for ConfigFault {}
