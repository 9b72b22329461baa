//! Names in texts, each with the place where it stands, which faults tell.
//! A name is a plain value, of at most `MAX_NAME_BYTES` bytes where it was read.

use protocol_lexer::Place;
use sequence::Text;

/// The most bytes of a name.
pub const MAX_NAME_BYTES: usize = 32;

/// A name, with the place where it stands in the text.
#[derive(Drop, Debug)]
pub struct Name {
    pub text: Text,
    pub place: Place,
}
