//! The command that checks many properties of a protocol: the text of the properties is read, and its names; the searches are made, side
//! by side; and each verdict is told after a line with its property's name. It costs what the searches cost together, in so many threads
//! as the words say; the reply does not depend on their number.

ghost use Rattle.std.specs.Prelude.{◌≡◌, ◌≤◌, ℕ, List, IfOk, None, Some, codes};
ghost use Rattle.std.specs.List.{list_any};
ghost use Rattle.command_words.specs.Words.{IsLimits, most_budget};
ghost use Rattle.protocol_syntax.specs.Properties.{AreProperties};
ghost use Rattle.protocol_properties.specs.Properties.{AreAllowedBlocks};
ghost use Rattle.protocol_model.specs.System.{SystemData};
ghost use Rattle.property_batch.specs.PropertyVerdicts.{AreVerdicts, IsPropertyVerdict};
ghost use Rattle.command_replies.specs.declared.reply.Reply.{Reply as ReplyData};
ghost use Rattle.armc_commands.specs.declared.search_reply.Telling.TheVariants.{Certificate};
ghost use Rattle.armc_commands.specs.SearchReply.{IsSearchReply, status_of, titled, is_unsafe as is_unsafe_verdict, is_unknown as is_unknown_verdict};
ghost use Rattle.command_replies.specs.Reply.{refusal_reply as refusal_reply_of};
ghost use Rattle.armc_commands.specs.Commands.CheckAll.{IsCheckAllReply, CheckAllPromise, property_parts};
ghost use Rattle.armc_commands.specs.private.PartTexts.{AreTold, IsToldPart};

use crate::search_reply::keep_search_promises;
use armc_io::Gate;
use command_replies::{
    Refusal, Reply, Status, line_of, on_out, refusal_reply, refused_by_grammar, refused_by_names,
};
use command_words::Limits;
use property_batch::{property_verdicts_show, search_all};
use protocol_model::System;
use protocol_properties::{Property, resolve_properties, texts_say_allowed_properties};
use protocol_search::{Analysis, FirstAbstraction, Search, verdict_text};
use protocol_syntax::{Name, RowText, parse_properties};
use refinement::Verdict;
use std::alloc::{AllocError, Global};
use std::thread::Threads;

// The reply to a text of properties with this first fault.
fn refused(alloc: Global, refusal: &Refusal) -> Result<Reply, AllocError>
    ensures { IfOk result (λ reply. reply ≡ refusal_reply_of (codes "properties") Status.CertificateRefused refusal.now) }
{
    refusal_reply(alloc, "properties", Status::CertificateRefused, refusal)
}

// Whether a verdict is that there is a bad run.
fn is_unsafe(verdict: &Verdict) -> bool
    ensures { result ≡ is_unsafe_verdict verdict.now }
{
    matches!(verdict, Verdict::Unsafe { .. })
}

// Whether a verdict is that the budget was spent.
fn is_unknown(verdict: &Verdict) -> bool
    ensures { result ≡ is_unknown_verdict verdict.now }
{
    matches!(verdict, Verdict::Unknown { .. })
}

// Whether one of the verdicts is that there is a bad run.
fn any_unsafe(verdicts: &[Verdict]) -> bool
    ensures { result ≡ list_any is_unsafe_verdict verdicts.now }
{
    verdicts.iter().any(|verdict| is_unsafe(verdict))
}

// Whether one of the verdicts is that the budget was spent.
fn any_unknown(verdicts: &[Verdict]) -> bool
    ensures { result ≡ list_any is_unknown_verdict verdicts.now }
{
    verdicts.iter().any(|verdict| is_unknown(verdict))
}

// The status of some verdicts: the worst of theirs.
fn worst_status(verdicts: &[Verdict]) -> Status
    ensures { result ≡ status_of verdicts.now }
{
    if any_unsafe(verdicts) {
        Status::Unsafe
    } else if any_unknown(verdicts) {
        Status::Unknown
    } else {
        Status::Done
    }
}

// The line of a property's name, and a text after it.
fn with_title(alloc: Global, name: &str, text: &[u8]) -> Result<Vec<u8>, AllocError>
    ensures { IfOk result (λ made. made.items ≡ titled (Some name.now) text.now) }
{
    let mut made = line_of(alloc, b"property ", name.as_bytes())?;
    made.extend_from_slice(text)?;
    Ok(made)
}

// The line of the property's name, and the text that tells its verdict.
fn told_part(
    alloc: Global,
    property: &Property,
    budget: u64,
    verdict: &Verdict,
) -> Result<Vec<u8>, AllocError>
    requires most { budget ≤ most_budget }
    requires verdict { IsPropertyVerdict budget property.now verdict.now }
    ensures { IfOk result (λ text. IsToldPart budget property.now verdict.now text.items) }
{
    let search = Search {
        analysis: Analysis::Forward,
        first: FirstAbstraction::TargetPredicates,
        budget,
    };
    property_verdicts_show();
    let certificate = verdict_text(alloc, &property.system, search, verdict)?;
    with_title(alloc, property.name.as_str(), certificate.as_slice())
}

// The texts that tell the verdicts, one after the other.
fn told_parts(
    alloc: Global,
    properties: &[Property],
    budget: u64,
    verdicts: &[Verdict],
) -> Result<Vec<u8>, AllocError>
    requires most { budget ≤ most_budget }
    requires verdicts { AreVerdicts budget properties.now verdicts.now }
    ensures { IfOk result (λ text. AreTold budget properties.now verdicts.now text.items) }
{
    let mut text = Vec::new(alloc);
    'parts: for (property, verdict) in properties.iter().zip(verdicts) {
        let part = told_part(alloc, property, budget, verdict)?;
        text.extend_from_slice(part.as_slice())?;
    }
    Ok(text)
}

// The reply to these properties: each is searched with the whole budget, and told.
fn search_properties<G: Gate, R: Threads + Sync>(
    alloc: Global,
    runtime: &R,
    gate: &G,
    properties: &[Property],
    limits: Limits,
) -> Result<Reply, AllocError>
    requires { IsLimits limits }
    ensures { IfOk result (IsSearchReply (Certificate None) (property_parts limits.budget properties.now)) }
{
    let Limits { budget, workers } = limits;
    let verdicts = search_all(alloc, runtime, properties, budget, workers, gate)?;
    let text = told_parts(alloc, properties, budget, verdicts.as_slice())?;
    Ok(on_out(alloc, worst_status(verdicts.as_slice()), text))
}

// The reply to the properties that some text says, or the line of the first fault of their names.
fn reply_to_blocks<G: Gate, R: Threads + Sync>(
    alloc: Global,
    runtime: &R,
    gate: &G,
    system: &System,
    blocks: &[(Name, RowText)],
    limits: Limits,
) -> Result<Reply, AllocError>
    requires blocks { AreAllowedBlocks blocks.now }
    requires limits { IsLimits limits }
    ensures { (text : List ℕ) → AreProperties text blocks.now → IfOk result (IsCheckAllReply system.now limits.budget text) }
{
    match resolve_properties(alloc, system, blocks) {
        Ok(properties) => { search_properties(alloc, runtime, gate, properties.as_slice(), limits) }
        Err(fault) => refused(alloc, &refused_by_names(fault)?),
    }
}

/// The verdicts on the properties that the text says of the system, each told as `check` tells it, or the line of the text's first fault.
/// The only error is that memory ran out.
pub fn check_all_reply<G: Gate, R: Threads + Sync>(
    alloc: Global,
    runtime: &R,
    gate: &G,
    system: &System,
    text: &[u8],
    limits: Limits,
) -> Result<Reply, AllocError>
    requires { IsLimits limits }
    ensures { IfOk result (IsCheckAllReply system.now limits.budget text.now) }
{
    texts_say_allowed_properties();
    match parse_properties(alloc, text) {
        Ok(blocks) => reply_to_blocks(alloc, runtime, gate, system, blocks.as_slice(), limits),
        Err(fault) => refused(alloc, &refused_by_grammar(fault)?),
    }
}

/// What `checkall` promises: each part of the reply comes from the one history of its own property's search, and what it tells is true. The
/// function does nothing.
pub fn keeps_check_all_promise()
    ensures { (s : SystemData) (budget : ℕ) (text : List ℕ) (reply : ReplyData)
        → IsCheckAllReply s budget text reply → CheckAllPromise s budget text reply }
{
    keep_search_promises();
}
