//! Replies, which are a status and two texts, and those that do not depend on the command.
//! A text is moved into its reply; the lines that are made here are copied, in time linear in their length.

ghost use Rattle.std.specs.Prelude.{◌≡◌, ◌≢◌, ◌++◌, IfOk, OnOk};
ghost use Rattle.command_replies.specs.Line.{line};
ghost use Rattle.command_replies.specs.Refusal.{certificate_refusal_text};
ghost use Rattle.command_replies.specs.Reply.{on_out as on_out_of, on_err as on_err_of, usage as usage_reply, refusal_reply as refusal_reply_of, failure_reply as failure_reply_of};

use crate::failure::Failure;
use crate::line::line_of;
use crate::refusal::{Refusal, certificate_refusal_line, refusal_line};
use crate::status::Status;
use certificate::CertFault;
use sequence::{Sequence, Text};
use std::alloc::{AllocError, Global};

/// A reply before it is written: the exit status, and the whole texts of standard output and standard error.
#[derive(Drop)]
pub struct Reply {
    /// The exit status.
    pub status: Status,
    /// What standard output gets.
    pub out: Sequence<u8>,
    /// What standard error gets.
    pub err: Sequence<u8>,
}

/// A reply with this text on standard output.
pub fn on_out(alloc: Global, status: Status, text: Vec<u8>) -> Reply
    ensures { result ≡ on_out_of status text.items }
{
    Reply {
        status,
        out: Sequence::from_vec(text),
        err: Sequence::from_vec(Vec::new(alloc)),
    }
}

/// A reply with this text on standard error.
pub fn on_err(alloc: Global, status: Status, text: Vec<u8>) -> Reply
    ensures { result ≡ on_err_of status text.items }
{
    Reply {
        status,
        out: Sequence::from_vec(Vec::new(alloc)),
        err: Sequence::from_vec(text),
    }
}

/// The reply to words that mean no command: the commands with their words. The only error is that memory ran out.
pub fn usage(alloc: Global) -> Result<Reply, AllocError>
    ensures { IfOk result (λ reply. reply ≡ usage_reply) }
{
    let text = line_of(alloc, command_words::usage().as_bytes(), b"")?;
    Ok(on_err(alloc, Status::Usage, text))
}

/// The reply with this status to a text of this kind with this first fault. The only error is that memory ran out.
pub fn refusal_reply(
    alloc: Global,
    kind: &str,
    status: Status,
    refusal: &Refusal,
) -> Result<Reply, AllocError>
    ensures { IfOk result (λ reply. reply ≡ refusal_reply_of kind.now status refusal.now) }
{
    let text = refusal_line(alloc, kind, refusal)?;
    Ok(on_err(alloc, status, text))
}

/// The reply to a certificate with this first fault. The only error is that memory ran out.
pub fn certificate_refusal(alloc: Global, fault: &CertFault) -> Result<Reply, AllocError>
    ensures reply { IfOk result (λ reply. reply ≡ on_err_of Status.CertificateRefused (line (certificate_refusal_text fault.now))) }
    ensures fault { OnOk result (fault.now ≢ CertFault.Memory) }
{
    let text = certificate_refusal_line(alloc, fault)?;
    Ok(on_err(alloc, Status::CertificateRefused, text))
}

// The reply to a text of this name, which was not read, for which these words say why.
fn unread(alloc: Global, words: &[u8], name: &Text) -> Result<Reply, AllocError>
    ensures { IfOk result (λ reply. reply ≡ on_err_of Status.ReadFault (line (words.now ++ name.now))) }
{
    let text = line_of(alloc, words, name.as_str().as_bytes())?;
    Ok(on_err(alloc, Status::ReadFault, text))
}

/// What is replied where a call failed. The only error is that memory ran out.
pub fn failure_reply(alloc: Global, failure: &Failure) -> Result<Reply, AllocError>
    ensures { IfOk result (λ reply. reply ≡ failure_reply_of failure.now) }
{
    match failure {
        Failure::ReadFault(name) => unread(alloc, b"armc: read fault: ", name),
        Failure::TooLong(name) => unread(alloc, b"armc: too long: ", name),
        Failure::Memory => {
            let text = b"armc: out of memory\n".to_vec(alloc)?;
            Ok(on_err(alloc, Status::Memory, text))
        }
    }
}
