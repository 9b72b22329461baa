//! How two texts reach two sinks: each by one call, an empty one by none, and nothing after a fault.
//! It costs what the sinks take for the texts.

ghost use Rattle.command_replies.specs.Delivery.{Delivers, CountsFaults};
ghost use Rattle.command_replies.specs.Text.{PutsText};

use crate::status::Status;
use armc_io::{Sink, SinkFail};

// Puts the text by one call; an empty text is not put.
fn put_text<S: Sink>(sink: &mut S, text: &[u8]) -> Result<(), SinkFail>
    ensures text { PutsText (S.state sink.old) (S.state sink.new) text.now result }
    ensures faults { CountsFaults text.now (S.state sink.old) (S.state sink.new) }
{
    if text.is_empty() {
        return Ok(());
    }
    sink.put(text)
}

/// Puts the one text and then the other, each by one call, and nothing after a fault. It gives `status`, or `WriteFault`
/// where a sink failed.
pub fn deliver<O: Sink, E: Sink>(
    status: Status,
    out_text: &[u8],
    err_text: &[u8],
    out: &mut O,
    err: &mut E,
) -> Status
    ensures texts { Delivers status out_text.now err_text.now (O.state out.old) (O.state out.new)
        (E.state err.old) (E.state err.new) result }
    ensures out { CountsFaults out_text.now (O.state out.old) (O.state out.new) }
    ensures err { CountsFaults err_text.now (E.state err.old) (E.state err.new) }
{
    if put_text(out, out_text).is_err() {
        return Status::WriteFault;
    }
    if put_text(err, err_text).is_err() {
        return Status::WriteFault;
    }
    status
}
