//! The system of a protocol's text, for tests and others that have no use for its faults. It costs what the parse of the text costs, and
//! the resolution of its names.

ghost use Rattle.std.specs.Prelude.{IfOk, IfSome};
ghost use Rattle.tests.specs.Systems.{IsSystemOfText};

use protocol_model::{ModelFault, System, resolve};
use protocol_syntax::{SyntaxFault, parse};
use std::alloc::{AllocError, Global};

/// The system of the protocol that the text says, or `None` where the text has a fault. The only error is that memory ran out.
pub fn read_system(alloc: Global, text: &[u8]) -> Result<Option<System>, AllocError>
    ensures { IfOk result (λ found. IfSome found (IsSystemOfText text.now)) }
{
    let protocol = match parse(alloc, text) {
        Ok(protocol) => protocol,
        Err(SyntaxFault::Memory) => return Err(AllocError),
        Err(_) => return Ok(None),
    };
    match resolve(alloc, &protocol) {
        Ok(system) => Ok(Some(system)),
        Err(ModelFault::Memory) => Err(AllocError),
        Err(_) => Ok(None),
    }
}
