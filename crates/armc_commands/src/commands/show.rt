//! The command that lays out a protocol: its text is the canonical layout of a protocol that was read and has no fault.
//! It costs the length of the layout.

ghost use Rattle.std.specs.Prelude.{IfOk};
ghost use Rattle.armc_commands.specs.Commands.Show.{IsShowReply};

use command_replies::{Reply, Status, on_out};
use protocol_layout::print;
use protocol_syntax::Protocol;
use std::alloc::{AllocError, Global};

/// The canonical layout of the protocol. The only error is that memory ran out.
pub fn show_reply(alloc: Global, protocol: &Protocol) -> Result<Reply, AllocError>
    ensures { IfOk result (IsShowReply protocol.now) }
{
    let text = print(alloc, protocol)?;
    Ok(on_out(alloc, Status::Done, text))
}
