//! Each command as one case of each function: where its two texts come from, its reply, and what a reply promises. Where a text comes from
//! is found in constant time; a reply costs what its command costs.

ghost use Rattle.std.specs.Prelude.{◌≡◌, ℕ, List, IfOk};
ghost use Rattle.protocol_syntax.specs.declared.protocol.Protocol.{Protocol as ProtocolData};
ghost use Rattle.protocol_model.specs.Numbering.{system_of};
ghost use Rattle.command_words.specs.Words.{Command as CommandData, IsInRange, said};
ghost use Rattle.command_replies.specs.Reading.{IsFaultless};
ghost use Rattle.command_replies.specs.declared.reply.Reply.{Reply as ReplyData};
ghost use Rattle.armc_commands.specs.Origin.{IsReadable, origin_of};
ghost use Rattle.armc_commands.specs.Commands.{protocol_origin as protocol_origin_of, second_origin as second_origin_of, CommandReply, Promise};

mod checkall;
mod generate;
mod migrate;
mod queries;
mod show;
mod steps;
mod verify;

use crate::origin::Origin;
use armc_io::Gate;
use checkall::{check_all_reply, keeps_check_all_promise};
use command_replies::Reply;
use command_words::Command;
use generate::{generate_reply, keeps_generate_promise};
use migrate::{keeps_migrate_promise, migrate_reply};
use protocol_model::{System, texts_say_allowed_protocols};
use protocol_syntax::Protocol;
pub use queries::keeps_query_promise;
use queries::query_reply;
use show::show_reply;
use std::alloc::{AllocError, Global};
use std::thread::Threads;
use steps::steps_reply;
use verify::{keeps_verify_promise, verify_reply};

/// The most bytes of a text of a protocol or of properties.
const TEXT_LIMIT: u64 = 1_048_576;

/// The most bytes of a certificate text.
const CERTIFICATE_LIMIT: u64 = 67_108_864;

/// Where the text of the command's protocol comes from.
pub fn protocol_origin(command: Command<'_>) -> Origin<'_>
    requires { IsInRange (said command) }
    ensures origin { origin_of result ≡ protocol_origin_of (said command.entry) }
    ensures readable { IsReadable (origin_of result) }
{
    let limit = TEXT_LIMIT;
    match command {
        Command::Verify { file, .. } => Origin::Named { name: file, limit },
        Command::Migrate { file, .. } => Origin::Named { name: file, limit },
        Command::Steps { file, .. } => Origin::Named { name: file, limit },
        Command::Show { file } => Origin::Named { name: file, limit },
        Command::Search { file, .. } => Origin::Named { name: file, limit },
        Command::CheckAll { file, .. } => Origin::Named { name: file, limit },
        Command::Generate { number, .. } => Origin::Generated { number },
    }
}

/// Where the command's second text comes from: the certificate, the configuration, the properties, or no text.
pub fn second_origin(command: Command<'_>) -> Origin<'_>
    ensures origin { origin_of result ≡ second_origin_of (said command.entry) }
    ensures readable { IsReadable (origin_of result) }
{
    match command {
        Command::Verify { certificate, .. } => Origin::Named {
            name: certificate,
            limit: CERTIFICATE_LIMIT,
        },
        Command::Migrate { certificate, .. } => Origin::Named {
            name: certificate,
            limit: CERTIFICATE_LIMIT,
        },
        Command::Steps { configuration, .. } => Origin::Given {
            text: configuration,
        },
        Command::Show { .. } => Origin::Given { text: "" },
        Command::Search { .. } => Origin::Given { text: "" },
        Command::CheckAll { properties, .. } => Origin::Named {
            name: properties,
            limit: TEXT_LIMIT,
        },
        Command::Generate { .. } => Origin::Given { text: "" },
    }
}

/// The reply of the command for this protocol, which has no fault, its system and the second text. The only error is that memory ran out.
pub fn command_reply<G: Gate, R: Threads + Sync>(
    alloc: Global,
    runtime: &R,
    gate: &G,
    command: Command,
    protocol: &Protocol,
    system: &System,
    text: &[u8],
) -> Result<Reply, AllocError>
    requires system { system.now ≡ system_of protocol.now }
    requires in_range { IsInRange (said command) }
    ensures { IfOk result (CommandReply (said command.entry) protocol.now text.now) }
{
    match command {
        Command::Verify { .. } => verify_reply(alloc, system, text),
        Command::Migrate { .. } => migrate_reply(alloc, system, text),
        Command::Steps { .. } => steps_reply(alloc, system, text),
        Command::Show { .. } => show_reply(alloc, protocol),
        Command::Search { query, limits, .. } => {
            query_reply(alloc, runtime, gate, system, query, limits)
        }
        Command::CheckAll { limits, .. } => {
            check_all_reply(alloc, runtime, gate, system, text, limits)
        }
        Command::Generate { number, workers } => {
            generate_reply(alloc, runtime, gate, system, number, workers)
        }
    }
}

/// The law of replies: where some text says the protocol, and it has no fault, each keeps what its command promises. The function does
/// nothing.
pub fn keep_promises()
    ensures { (command : CommandData) (source : List ℕ) (p : ProtocolData) (text : List ℕ) (reply : ReplyData) → IsFaultless source p
        → CommandReply command p text reply → Promise command p text reply }
{
    texts_say_allowed_protocols();
    keeps_verify_promise();
    keeps_migrate_promise();
    keeps_query_promise();
    keeps_check_all_promise();
    keeps_generate_promise();
}
