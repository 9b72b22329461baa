//! The command that prints a certificate in the newest version of its text: an automaton with a table of its letters, and a run as it is.
//! It costs what its two texts cost.

ghost use Rattle.std.specs.Prelude.{◌≡◌, ℕ, List, IfOk};
ghost use Rattle.certificate.specs.Meaning.{IsCertificateOf};
ghost use Rattle.protocol_model.specs.System.{SystemData};
ghost use Rattle.command_replies.specs.declared.reply.Reply.{Reply as ReplyData};
ghost use Rattle.armc_commands.specs.Commands.Migrate.{migrated_text as migrated_text_of, IsMigrateReply, MigratePromise};

use certificate::{Certificate, read};
use certificate_writing::{write_safe2, write_unsafe};
use command_replies::{Reply, Status, certificate_refusal, on_out};
use protocol_model::System;
use std::alloc::{AllocError, Global};

// The newest text of a certificate that some text means.
fn migrated_text(
    alloc: Global,
    system: &System,
    certificate: &Certificate,
) -> Result<Vec<u8>, AllocError>
    requires { (text : List ℕ) × IsCertificateOf system.now text certificate.now }
    ensures text { IfOk result (λ text. text.items ≡ migrated_text_of system.now certificate.now) }
    ensures meaning { IfOk result (λ text. IsCertificateOf system.now text.items certificate.now) }
{
    match certificate {
        Certificate::Automaton(automaton) => write_safe2(alloc, system, automaton),
        Certificate::BadRun(run) => write_unsafe(alloc, system, run),
    }
}

/// The newest text of the certificate that the text means, or the line of its first fault. The only error is that memory ran out.
pub fn migrate_reply(alloc: Global, system: &System, text: &[u8]) -> Result<Reply, AllocError>
    ensures { IfOk result (IsMigrateReply system.now text.now) }
{
    let certificate = match read(alloc, text, system) {
        Ok(certificate) => certificate,
        Err(fault) => return certificate_refusal(alloc, &fault),
    };
    let migrated = migrated_text(alloc, system, &certificate)?;
    Ok(on_out(alloc, Status::Done, migrated))
}

/// What `migrate` promises: at status 0 the text means the same automaton or run as the one that was read. The function does nothing.
pub fn keeps_migrate_promise()
    ensures { (s : SystemData) (text : List ℕ) (reply : ReplyData) → IsMigrateReply s text reply → MigratePromise s text reply }
{}
