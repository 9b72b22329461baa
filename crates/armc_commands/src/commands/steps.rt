//! The command that lists successors: the text of a configuration is read, its successors are found, and each is told in a line. It costs
//! what the successors cost to find, and the length of the lines.

ghost use Rattle.std.specs.Prelude.{◌≡◌, ◌≢◌, ◌++◌, IsTrue, IfOk, OnOk};
ghost use Rattle.std.specs.List.{AllByRecursion};
ghost use Rattle.protocol_model.specs.Patterns.{fits};
ghost use Rattle.command_replies.specs.Line.{line};
ghost use Rattle.command_replies.specs.Refusal.{configuration_refusal_text};
ghost use Rattle.command_replies.specs.Reply.{on_err as on_err_of};
ghost use Rattle.armc_commands.specs.Commands.Steps.{successor_line, successors_text as successors_text_of, IsStepsReply};

use command_replies::{Reply, Status, configuration_refusal_line, on_err, on_out, rule_name};
use configuration_words::{ConfigFault, configuration_text, read_configuration};
use protocol_model::{Configuration, System};
use protocol_steps::successors;
use std::alloc::{AllocError, Global};

// Appends the line of one successor.
fn push_successor(
    alloc: Global,
    text: &mut Vec<u8>,
    system: &System,
    pair: &(u32, Configuration),
) -> Result<(), AllocError>
    requires { IsTrue (fits system.now pair.now.1) }
    ensures { OnOk result (text.new.items ≡ text.old.items ++ successor_line system.now pair.now) }
{
    text.extend_from_slice(rule_name(system, pair.0))?;
    text.extend_from_slice(b" -> ")?;
    let words = configuration_text(alloc, system, &pair.1)?;
    text.extend_from_slice(words.as_slice())?;
    text.push(b'\n')?;
    Ok(())
}

// The lines of the successors, each with the name of its rule.
fn successors_text(
    alloc: Global,
    system: &System,
    pairs: &[(u32, Configuration)],
) -> Result<Vec<u8>, AllocError>
    requires { AllByRecursion (λ pair. IsTrue (fits system.now pair.1)) pairs.now }
    ensures { IfOk result (λ text. text.items ≡ successors_text_of system.now pairs.now) }
{
    let mut text = Vec::new(alloc);
    let mut rest = pairs;
    'lines: while let [first, after @ ..] = rest {
        push_successor(alloc, &mut text, system, first)?;
        rest = after;
    }
    Ok(text)
}

// The reply to a configuration with this first fault.
fn refused(alloc: Global, fault: &ConfigFault) -> Result<Reply, AllocError>
    ensures reply { IfOk result (λ reply. reply ≡ on_err_of Status.CertificateRefused (line (configuration_refusal_text fault.now))) }
    ensures fault { OnOk result (fault.now ≢ ConfigFault.Memory) }
{
    let text = configuration_refusal_line(alloc, fault)?;
    Ok(on_err(alloc, Status::CertificateRefused, text))
}

/// The lines of the successors of the configuration that the text means, or the line of its first fault. The only error is want of
/// memory.
pub fn steps_reply(alloc: Global, system: &System, text: &[u8]) -> Result<Reply, AllocError>
    ensures { IfOk result (IsStepsReply system.now text.now) }
{
    let configuration = match read_configuration(alloc, system, text) {
        Ok(configuration) => configuration,
        Err(fault) => return refused(alloc, &fault),
    };
    let pairs = successors(alloc, system, &configuration)?;
    let lines = successors_text(alloc, system, pairs.as_slice())?;
    Ok(on_out(alloc, Status::Done, lines))
}
