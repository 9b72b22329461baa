//! The command that judges a certificate: its text is read, the judgement is made, and its answer is told in a line.
//! It costs what the judgement costs.

ghost use Rattle.std.specs.Prelude.{◌≡◌, ◌++◌, ℕ, List, IsTrue, IfOk, codes, decimal};
ghost use Rattle.protocol_model.specs.Patterns.{fits};
ghost use Rattle.configuration_words.specs.Texts.{configuration_text as text_of};
ghost use Rattle.protocol_model.specs.System.{SystemData, IsValid};
ghost use Rattle.command_replies.specs.declared.reply.Reply.{Reply as ReplyData};
ghost use Rattle.certificate.specs.Meaning.{IsCertificateOf};
ghost use Rattle.certificate_checker.specs.Answers.{HasLetters};
ghost use Rattle.command_replies.specs.Line.{line};
ghost use Rattle.command_replies.specs.Reply.{on_out as on_out_of};
ghost use Rattle.armc_commands.specs.Commands.Verify.{Judges, ShowsFitting, IsVerifyReply, VerifyPromise, answer_text, answer_status as answer_status_of};

use certificate::{Certificate, one_reading, read};
use certificate_checker::{Answer, check_certificate, one_answer, proofs_are_sound};
use command_replies::{Reply, Status, certificate_refusal, line_of, on_out, rule_name};
use configuration_words::configuration_text;
use protocol_model::{Configuration, System};
use std::alloc::{AllocError, Global};

// A line with a configuration at its end.
fn line_with_configuration(
    alloc: Global,
    start: &[u8],
    system: &System,
    configuration: &Configuration,
) -> Result<Vec<u8>, AllocError>
    requires { IsTrue (fits system.now configuration.now) }
    ensures { IfOk result (λ made. made.items ≡ line (start.now ++ text_of system.now configuration.now)) }
{
    let words = configuration_text(alloc, system, configuration)?;
    line_of(alloc, start, words.as_slice())
}

// The line of a step that leaves the automaton.
fn line_of_exit(
    alloc: Global,
    system: &System,
    rule: u32,
    before: &Configuration,
    after: &Configuration,
) -> Result<Vec<u8>, AllocError>
    requires before { IsTrue (fits system.now before.now) }
    requires after { IsTrue (fits system.now after.now) }
    ensures { IfOk result (λ made. made.items ≡ line (answer_text system.now (Answer.Leaves rule before.now after.now))) }
{
    let first = configuration_text(alloc, system, before)?;
    let last = configuration_text(alloc, system, after)?;
    let mut made = Vec::from_slice(alloc, b"not valid: leaves by ")?;
    made.extend_from_slice(rule_name(system, rule))?;
    made.extend_from_slice(b": ")?;
    made.extend_from_slice(first.as_slice())?;
    made.extend_from_slice(b" -> ")?;
    made.extend_from_slice(last.as_slice())?;
    made.push(b'\n')?;
    Ok(made)
}

// The line of a step of a run, by its number, to which no rule leads.
fn line_of_step(alloc: Global, step: u64) -> Result<Vec<u8>, AllocError>
    ensures { IfOk result (λ made. made.items ≡ line (codes "not valid: not step: " ++ decimal step)) }
{
    let made = format!(in alloc; "not valid: not step: {step}\n")?;
    Ok(made.into_bytes())
}

// The line that tells an answer.
fn answer_line(alloc: Global, system: &System, answer: &Answer) -> Result<Vec<u8>, AllocError>
    requires { ShowsFitting system.now answer.now }
    ensures { IfOk result (λ made. made.items ≡ line (answer_text system.now answer.now)) }
{
    match answer {
        Answer::Valid => b"valid\n".to_vec(alloc),
        Answer::InitialMissing(configuration) => {
            line_with_configuration(
                alloc,
                b"not valid: initial missing: ",
                system,
                configuration,
            )
        }
        Answer::BadHeld(configuration) => {
            line_with_configuration(alloc, b"not valid: bad held: ", system, configuration)
        }
        Answer::Leaves {
            rule,
            before,
            after,
        } => line_of_exit(alloc, system, *rule, before, after),
        Answer::NotInitial => b"not valid: not initial\n".to_vec(alloc),
        Answer::NotStep(step) => line_of_step(alloc, *step),
        Answer::NotBad => b"not valid: not bad\n".to_vec(alloc),
    }
}

// The status of an answer.
fn answer_status(answer: &Answer) -> Status
    ensures { result ≡ answer_status_of answer.now }
{
    match answer {
        Answer::Valid => Status::Done,
        _ => Status::NotValid,
    }
}

// The reply that tells an answer.
fn reply_to_answer(alloc: Global, system: &System, answer: &Answer) -> Result<Reply, AllocError>
    requires { ShowsFitting system.now answer.now }
    ensures { IfOk result (λ reply. reply ≡ on_out_of (answer_status_of answer.now) (line (answer_text system.now answer.now))) }
{
    let line = answer_line(alloc, system, answer)?;
    Ok(on_out(alloc, answer_status(answer), line))
}

// The reply that tells the judgement of a certificate.
fn judgement(alloc: Global, system: &System, certificate: &Certificate) -> Result<Reply, AllocError>
    requires { HasLetters system.now certificate.now }
    ensures { (text : List ℕ) → IsCertificateOf system.now text certificate.now → IfOk result (Judges system.now text) }
{
    let answer = check_certificate(alloc, system, certificate)?;
    reply_to_answer(alloc, system, &answer)
}

/// The line that tells the judgement of the certificate that the text means, or that of its first fault. The only error is that
/// memory ran out.
pub fn verify_reply(alloc: Global, system: &System, text: &[u8]) -> Result<Reply, AllocError>
    ensures { IfOk result (IsVerifyReply system.now text.now) }
{
    match read(alloc, text, system) {
        Ok(certificate) => judgement(alloc, system, &certificate),
        Err(fault) => certificate_refusal(alloc, &fault),
    }
}

/// What `verify` promises: the status is 0 exactly where the text shows a proof. The function does nothing.
pub fn keeps_verify_promise()
    ensures { (s : SystemData) → IsValid s → (text : List ℕ) (reply : ReplyData) → IsVerifyReply s text reply → VerifyPromise s text reply }
{
    one_reading();
    one_answer();
    proofs_are_sound();
}
