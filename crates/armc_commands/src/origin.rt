//! Where a text comes from: the library, by one read of a whole text within a limit; the command, whose text is copied; or the generator.
//! Each costs the length of the text.

ghost use Rattle.std.specs.Prelude.{◌≡◌, ◌≤◌, ◌⊎◌, IsTrue};
ghost use Rattle.armc_commands.specs.Origin.{IsReadable, origin_of};
ghost use Rattle.armc_commands.specs.private.LibraryReads.{GivesText, IsToldOrigin, failure_of_read};

use armc_io::{Library, ReadFail};
use chain_protocol::generate;
use command_replies::Failure;
use sequence::Text;
use std::alloc::Global;

/// Where a text comes from.
#[derive(Clone, Copy, Drop)]
pub enum Origin<'a> {
    /// It is read by its name.
    Named {
        /// The name.
        name: &'a str,
        /// The most bytes that it may have.
        limit: u64,
    },
    /// The command gives it.
    Given {
        /// The text.
        text: &'a str,
    },
    /// It is the text of the chain of so many states.
    Generated {
        /// The number of states, from 1 to 255.
        number: u32,
    },
}

// Why a text was not read: the outside failed, or the text is too long, or there was no memory.
fn failure_of(alloc: Global, name: &str, fail: ReadFail) -> Failure
    ensures { (result ≡ Failure.Memory) ⊎ (result ≡ failure_of_read name.now fail) }
{
    let Ok(name) = String::from_str(alloc, name) else {
        return Failure::Memory;
    };
    match fail {
        ReadFail::Failed => Failure::ReadFault(Text::from_string(name)),
        ReadFail::TooLong => Failure::TooLong(Text::from_string(name)),
        ReadFail::Memory => Failure::Memory,
    }
}

/// The text of this origin. A text that the command gives is copied, and one that is generated is made.
///
/// Errors: `ReadFault` where the library failed and `TooLong` where the text is longer than its limit, each with the name, and `Memory`
/// where memory ran out.
pub fn text_from<L: Library>(
    alloc: Global,
    origin: Origin,
    library: &mut L,
) -> Result<Vec<u8>, Failure>
    requires { IsReadable (origin_of origin) }
    ensures told { (L.state library.new).told ≡ (L.state library.old).told }
    ensures no_fall { (L.state library.old).faults ≤ (L.state library.new).faults }
    ensures no_fault { IsTrue (L.state library.old).is_reliable → IsToldOrigin (L.state library.old).told (origin_of origin.entry)
        → (L.state library.new).faults ≡ (L.state library.old).faults }
    ensures reliable { (L.state library.new).is_reliable ≡ (L.state library.old).is_reliable }
    ensures text { GivesText (L.state library.old) (L.state library.new) (origin_of origin.entry) result }
{
    match origin {
        Origin::Given { text } => Ok(text.as_bytes().to_vec(alloc)?),
        Origin::Generated { number } => Ok(generate(alloc, number)?),
        Origin::Named { name, limit } => match library.read_all(name, limit) {
            Ok(text) => Ok(text),
            Err(fail) => Err(failure_of(alloc, name, fail)),
        },
    }
}
