//! The command that searches the chain of a number by the default settings, and tells a summary. It costs what the search costs, in so many
//! threads as the words say; the reply does not depend on their number.

ghost use Rattle.std.specs.Prelude.{ℕ, IfOk};
ghost use Rattle.command_words.specs.Words.{IsWorkers};
ghost use Rattle.protocol_model.specs.System.{SystemData};
ghost use Rattle.command_replies.specs.declared.reply.Reply.{Reply as ReplyData};
ghost use Rattle.armc_commands.specs.Commands.Generate.{IsGenerateReply, GeneratePromise};

use crate::search_reply::{Telling, keep_search_promises, search_reply};
use armc_io::Gate;
use command_replies::Reply;
use command_words::DEFAULT_BUDGET;
use protocol_model::System;
use protocol_search::{Analysis, FirstAbstraction, Search};
use std::alloc::{AllocError, Global};
use std::thread::Threads;

/// The summary of the search for the system of the chain of this number, by the default settings. The only error is that memory ran out.
pub fn generate_reply<G: Gate, R: Threads + Sync>(
    alloc: Global,
    runtime: &R,
    gate: &G,
    system: &System,
    number: u32,
    workers: u32,
) -> Result<Reply, AllocError>
    requires { IsWorkers workers }
    ensures { IfOk result (IsGenerateReply system.now number) }
{
    let search = Search {
        analysis: Analysis::Forward,
        first: FirstAbstraction::TargetPredicates,
        budget: u64::from(DEFAULT_BUDGET),
    };
    let telling = Telling::Summary(number);
    search_reply(alloc, runtime, gate, system, search, telling, workers)
}

/// What `gen` promises: the reply comes from its history, and at status 0 the system is safe, and at status 1 it has a bad run. The
/// function does nothing.
pub fn keeps_generate_promise()
    ensures { (s : SystemData) (number : ℕ) (reply : ReplyData) → IsGenerateReply s number reply → GeneratePromise s number reply }
{
    keep_search_promises();
}
