//! What the text of a protocol says: its grammar is read first, and then its names. It costs the length of the text, and for each rule and
//! row at most the square of its names.

ghost use Rattle.std.specs.Prelude.{◌≡◌, ◌≢◌, IfOk, OnOk};
ghost use Rattle.command_replies.specs.Reading.{IsReadingOf};

use crate::refusal::Refusal;
use protocol_model::{ModelFault, System, resolve, texts_say_allowed_protocols};
use protocol_syntax::{Protocol, SyntaxFault, parse};
use std::alloc::{AllocError, Global};

/// What the text of a protocol says.
#[derive(Drop)]
pub enum Reading {
    /// A protocol without a fault, and its system.
    Protocol(Protocol, System),
    /// None; this is the first fault.
    Refused(Refusal),
}

/// What a fault of the tokens or the grammar says of a text. The only error is that memory ran out, in the fault's place.
pub fn refused_by_grammar(fault: SyntaxFault) -> Result<Refusal, AllocError>
    ensures refused { IfOk result (λ refusal. refusal ≡ Refusal.Syntax fault) }
    ensures fault { OnOk result (fault ≢ SyntaxFault.Memory) }
{
    match fault {
        SyntaxFault::Memory => Err(AllocError),
        _ => Ok(Refusal::Syntax(fault)),
    }
}

/// What a fault of the names says of a text. The only error is that memory ran out, in the fault's place.
pub fn refused_by_names(fault: ModelFault) -> Result<Refusal, AllocError>
    ensures refused { IfOk result (λ refusal. refusal ≡ Refusal.Model fault) }
    ensures fault { OnOk result (fault ≢ ModelFault.Memory) }
{
    match fault {
        ModelFault::Memory => Err(AllocError),
        _ => Ok(Refusal::Model(fault)),
    }
}

/// Reads the text of a protocol. The only error is that memory ran out.
pub fn read_protocol(alloc: Global, text: &[u8]) -> Result<Reading, AllocError>
    ensures { IfOk result (IsReadingOf text.now) }
{
    let protocol = match parse(alloc, text) {
        Ok(protocol) => protocol,
        Err(fault) => return Ok(Reading::Refused(refused_by_grammar(fault)?)),
    };
    texts_say_allowed_protocols();
    match resolve(alloc, &protocol) {
        Ok(system) => Ok(Reading::Protocol(protocol, system)),
        Err(fault) => Ok(Reading::Refused(refused_by_names(fault)?)),
    }
}
