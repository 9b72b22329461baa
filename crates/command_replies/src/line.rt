//! Parts of lines of output: a line of words and more after them, and the name of a rule.
//! A line is copied, in time linear in its length; a name is a part of the system, found in constant time.

ghost use Rattle.std.specs.Prelude.{◌≡◌, ◌++◌, IfOk};
ghost use Rattle.certificate.specs.RunText.{rule_name};
ghost use Rattle.command_replies.specs.Line.{line};

use protocol_model::System;
use std::alloc::{AllocError, Global};

/// The name of the rule of this number; nothing where there is none.
pub fn rule_name(system: &System, rule: u32) -> &[u8]
    ensures { result.now ≡ rule_name system.now rule }
{
    match system.rules.as_slice().get(rule as usize) {
        Some(rule) => rule.name.as_str().as_bytes(),
        None => b"",
    }
}

/// The line of these words and more after them. The only error is that memory ran out.
pub fn line_of(alloc: Global, words: &[u8], more: &[u8]) -> Result<Vec<u8>, AllocError>
    ensures { IfOk result (λ made. made.items ≡ line (words.now ++ more.now)) }
{
    let mut made = Vec::from_slice(alloc, words)?;
    made.extend_from_slice(more)?;
    made.push(b'\n')?;
    Ok(made)
}
