//! What a call comes to: the words, the protocol and the second text are read in this order, and the first that has a fault or cannot
//! be read ends the call. It costs what the command costs.

ghost use Rattle.std.specs.Prelude.{◌≡◌, ◌≤◌, ℕ, List, None, Some, IfOk, IsTrue, map, string_bytes};
ghost use Rattle.armc_io.specs.Library.{LibraryState};
ghost use Rattle.protocol_model.specs.Numbering.{system_of};
ghost use Rattle.command_words.specs.Words.{command_of as command_of_words, IsInRange, said};
ghost use Rattle.command_replies.specs.Reading.{IsReadingOf};
ghost use Rattle.armc_commands.specs.Origin.{IsTextFrom};
ghost use Rattle.armc_commands.specs.Commands.{protocol_origin as protocol_origin_of, second_origin as second_origin_of};
ghost use Rattle.armc_commands.specs.private.LibraryReads.{IsEarlier, IsToldOrigin};
ghost use Rattle.armc_commands.specs.Outcome.{HasProtocol, IsOutcome, IsReliableFor};

use crate::commands::{command_reply, protocol_origin, second_origin};
use crate::origin::text_from;
use armc_io::{Gate, Library};
use command_replies::{Failure, Reading, Reply, Status, read_protocol, refusal_reply, usage};
use command_words::{Command, command_of};
use protocol_model::System;
use protocol_syntax::Protocol;
use std::alloc::{AllocError, Global};
use std::thread::Threads;

// Reads the second text of the command, and carries it out for this protocol, which has no fault, and its system.
fn carry_out<L: Library, G: Gate, R: Threads + Sync>(
    alloc: Global,
    runtime: &R,
    gate: &G,
    command: Command,
    protocol: &Protocol,
    system: &System,
    library: &mut L,
) -> Result<Reply, Failure>
    requires system { system.now ≡ system_of protocol.now }
    requires in_range { IsInRange (said command) }
    ensures outcome { (words : List (List ℕ)) (before : LibraryState) → IsEarlier before (L.state library.old)
        → command_of_words words ≡ Some (said command.entry) → HasProtocol before.told (said command.entry) protocol.now
        → IsOutcome words before (L.state library.new) result }
    ensures no_fall { (L.state library.old).faults ≤ (L.state library.new).faults }
    ensures quiet { IsTrue (L.state library.old).is_reliable
        → IsToldOrigin (L.state library.old).told (second_origin_of (said command.entry))
        → (L.state library.new).faults ≡ (L.state library.old).faults }
{
    let text = match text_from(alloc, second_origin(command), library) {
        Ok(text) => text,
        Err(failure) => return Err(failure),
    };
    Ok(command_reply(
        alloc,
        runtime,
        gate,
        command,
        protocol,
        system,
        text.as_slice(),
    )?)
}

// Carries out the command for what the text of its protocol says, or tells the first fault of that text.
fn reply_to_reading<L: Library, G: Gate, R: Threads + Sync>(
    alloc: Global,
    runtime: &R,
    gate: &G,
    command: Command,
    reading: &Reading,
    library: &mut L,
) -> Result<Reply, Failure>
    requires reading { (text : List ℕ) × IsReadingOf text reading.now }
    requires in_range { IsInRange (said command) }
    ensures outcome { (words : List (List ℕ)) (before : LibraryState) (text : List ℕ) → IsEarlier before (L.state library.old)
        → command_of_words words ≡ Some (said command.entry) → IsTextFrom before.told (protocol_origin_of (said command.entry)) text
        → IsReadingOf text reading.now → IsOutcome words before (L.state library.new) result }
    ensures no_fall { (L.state library.old).faults ≤ (L.state library.new).faults }
    ensures quiet { (words : List (List ℕ)) (text : List ℕ) → IsReliableFor words (L.state library.old)
        → command_of_words words ≡ Some (said command.entry)
        → IsTextFrom (L.state library.old).told (protocol_origin_of (said command.entry)) text → IsReadingOf text reading.now
        → (L.state library.new).faults ≡ (L.state library.old).faults }
{
    match reading {
        Reading::Refused(refusal) => Ok(refusal_reply(
            alloc,
            "protocol",
            Status::ProtocolRefused,
            refusal,
        )?),
        Reading::Protocol(protocol, system) => {
            carry_out(alloc, runtime, gate, command, protocol, system, library)
        }
    }
}

// What the text of a protocol says, behind one pointer.
fn boxed_reading(alloc: Global, text: &[u8]) -> Result<Box<Reading>, AllocError>
    ensures { IfOk result (λ reading. IsReadingOf text.now reading.value) }
{
    Ok(Box::new(alloc, read_protocol(alloc, text)?)?)
}

// Reads the protocol of the command, and carries it out where the protocol has no fault.
fn reply_to_command<L: Library, G: Gate, R: Threads + Sync>(
    alloc: Global,
    runtime: &R,
    gate: &G,
    command: Command,
    library: &mut L,
) -> Result<Reply, Failure>
    requires { IsInRange (said command) }
    ensures outcome { (words : List (List ℕ)) → command_of_words words ≡ Some (said command.entry)
        → IsOutcome words (L.state library.old) (L.state library.new) result }
    ensures no_fall { (L.state library.old).faults ≤ (L.state library.new).faults }
    ensures quiet { (words : List (List ℕ)) → command_of_words words ≡ Some (said command.entry)
        → IsReliableFor words (L.state library.old) → (L.state library.new).faults ≡ (L.state library.old).faults }
{
    let text = match text_from(alloc, protocol_origin(command), library) {
        Ok(text) => text,
        Err(failure) => return Err(failure),
    };
    let reading = boxed_reading(alloc, text.as_slice())?;
    reply_to_reading(alloc, runtime, gate, command, &reading, library)
}

/// Reads the texts that the words name in their order, and makes the reply.
///
/// Errors: `ReadFault` where the library failed and `TooLong` where a text is longer than its limit, each with the name, and `Memory`
/// where memory ran out.
pub fn reply_to<L: Library, G: Gate, R: Threads + Sync>(
    alloc: Global,
    runtime: &R,
    gate: &G,
    words: &[String],
    library: &mut L,
) -> Result<Reply, Failure>
    ensures outcome { IsOutcome (map string_bytes words.now) (L.state library.old) (L.state library.new) result }
    ensures no_fall { (L.state library.old).faults ≤ (L.state library.new).faults }
    ensures quiet { IsReliableFor (map string_bytes words.now) (L.state library.old)
        → (L.state library.new).faults ≡ (L.state library.old).faults }
    ensures untouched { command_of_words (map string_bytes words.now) ≡ None → L.state library.new ≡ L.state library.old }
{
    match command_of(alloc, words)? {
        None => Ok(usage(alloc)?),
        Some(command) => reply_to_command(alloc, runtime, gate, command, library),
    }
}
