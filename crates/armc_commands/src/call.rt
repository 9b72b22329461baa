//! The top call: the reply to the words is made, and then its two texts are put, the one on standard output first. It costs what the
//! command costs, and the length of both texts.

ghost use Rattle.std.specs.Prelude.{◌≡◌, ◌⊎◌, IfOk, Err, None, map, string_bytes};
ghost use Rattle.command_words.specs.Words.{command_of};
ghost use Rattle.command_replies.specs.Reply.{reply_of};
ghost use Rattle.armc_commands.specs.OneReply.{HasOneReply};
ghost use Rattle.armc_commands.specs.ReplyLaws.{WorkersKeepReply, LargerBudgetKeepsReply, LargerBudgetKeepsParts};
ghost use Rattle.armc_commands.specs.Answer.{Answers, DeliversCounted, IsSound, IsQuiet, IsDecided, AreQuietEnds, KeepsCounts};

use crate::commands::keep_promises;
use crate::law::{larger_budget_keeps_reply, one_reply, workers_keep_reply};
use crate::outcome::reply_to;
use armc_io::{Gate, Library, Sink};
use command_replies::{Failure, Reply, Status, deliver, failure_reply};
use std::alloc::{AllocError, Global};
use std::thread::Threads;

// The status and the texts of an answer.
fn told(alloc: Global, outcome: Result<Reply, Failure>) -> Result<Reply, AllocError>
    ensures { IfOk result (λ reply. reply ≡ reply_of outcome) }
{
    match outcome {
        Ok(reply) => Ok(reply),
        Err(failure) => failure_reply(alloc, &failure),
    }
}

// Puts the texts of the answer, or those that say that memory ran out where they cannot be made.
fn answer<O: Sink, E: Sink>(
    alloc: Global,
    outcome: Result<Reply, Failure>,
    out: &mut O,
    err: &mut E,
) -> Status
    ensures { DeliversCounted (reply_of outcome) (O.state out.old) (O.state out.new) (E.state err.old) (E.state err.new) result
        ⊎ DeliversCounted (reply_of (Err Failure.Memory)) (O.state out.old) (O.state out.new) (E.state err.old) (E.state err.new) result }
{
    match told(alloc, outcome) {
        Ok(reply) => deliver(
            reply.status,
            reply.out.as_slice(),
            reply.err.as_slice(),
            out,
            err,
        ),
        Err(_) => deliver(Status::Memory, b"", b"armc: out of memory\n", out, err),
    }
}

/// Answers the words after the program's name: reads the texts that they name, puts one text on `out` and one on `err`,
/// and gives the exit status.
///
/// `check FILE` answers `Done` with an automaton that proves the protocol, `Unsafe` with a bad run, or `Unknown` where the counted states
/// reached the budget, and with `--report` it puts a line of JSON on `err`; `back FILE` and `past FILE` answer so too. `deadlock FILE`
/// answers `Done` with an automaton that shows that no run ends in a deadlock, `Unsafe` with a run that does, or `Unknown`. `gen N`
/// searches the chain of N states with the default settings, has the same statuses, and answers with a summary. `show FILE` answers `Done`
/// with the protocol in its canonical layout. `steps FILE CONFIGURATION` answers `Done` with a line for each successor of the
/// configuration, by rule and then by word. `verify FILE CERT` answers `Done` where the certificate proves the protocol or is a bad run of
/// it, and else `NotValid` with the first part of a proof or a run that fails. `migrate FILE CERT` answers `Done` with the newest text of
/// the certificate. `checkall FILE PROPS` searches each property of a text as `check` does, and answers with a title and the text of
/// `check` for each: `Unsafe` where one has a bad run, else `Unknown` where one is unknown, and else `Done`. `ReadFault` comes where a read
/// failed or a text is longer than its limit, `ProtocolRefused` where the text of the protocol has a fault, and `CertificateRefused` where
/// that of the certificate, the configuration or the properties has one, each with the place of the first one. `Usage` comes for words that
/// mean no command, `WriteFault` where a sink failed, and `Memory` where memory runs out.
pub fn run<L: Library, O: Sink, E: Sink, G: Gate, R: Threads + Sync>(
    alloc: Global,
    runtime: &R,
    words: &[String],
    library: &mut L,
    out: &mut O,
    err: &mut E,
    gate: &G,
) -> Status
    ensures answer { Answers (map string_bytes words.now) (L.state library.old) (L.state library.new)
        (O.state out.old) (O.state out.new) (E.state err.old) (E.state err.new) result }
    ensures sound { IsSound (map string_bytes words.now) (L.state library.old).told
        (O.state out.old) (O.state out.new) (E.state err.old) (E.state err.new) result }
    ensures decided { IsQuiet (L.state library.old) (L.state library.new) (O.state out.old) (O.state out.new)
        (E.state err.old) (E.state err.new)
        → IsDecided (map string_bytes words.now) (L.state library.old).told (O.state out.old) (O.state out.new)
        (E.state err.old) (E.state err.new) result }
    ensures quiet { AreQuietEnds (map string_bytes words.now) (L.state library.old) (O.state out.old) (E.state err.old)
        → IsQuiet (L.state library.old) (L.state library.new) (O.state out.old) (O.state out.new) (E.state err.old) (E.state err.new) }
    ensures usage { result ≡ Status.Usage → command_of (map string_bytes words.now) ≡ None }
    ensures untouched { command_of (map string_bytes words.now) ≡ None → L.state library.new ≡ L.state library.old }
    ensures counts { KeepsCounts (L.state library.old) (L.state library.new) (O.state out.old) (O.state out.new)
        (E.state err.old) (E.state err.new) }
    ensures one_reply { HasOneReply (map string_bytes words.now) (L.state library.old).told }
    ensures workers { WorkersKeepReply (map string_bytes words.now) (L.state library.old).told }
    ensures larger_budget { LargerBudgetKeepsReply (map string_bytes words.now) (L.state library.old).told }
    ensures larger_budget_of_parts { LargerBudgetKeepsParts (map string_bytes words.now) (L.state library.old).told }
{
    one_reply();
    workers_keep_reply();
    larger_budget_keeps_reply();
    keep_promises();
    let outcome = reply_to(alloc, runtime, gate, words, library);
    answer(alloc, outcome, out, err)
}
