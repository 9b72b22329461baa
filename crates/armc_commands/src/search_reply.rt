//! The reply of a command that searches: the search is made, its verdict is told, and the report of its log is added where it is asked for.
//! It costs what the search costs, in so many threads as the words say; the reply does not depend on their number.

ghost use Rattle.std.specs.Prelude.{◌≡◌, ◌<◌, ◌≤◌, [], ◌∷◌, List, None, IfOk};
ghost use Rattle.refinement.specs.Verdicts.{IsSound, log_in};
ghost use Rattle.protocol_search.specs.Analyses.{proof_limit, task_for};
ghost use Rattle.protocol_search.specs.Verdicts.{IsVerdictOf};
ghost use Rattle.command_words.specs.Words.{IsWorkers, most_budget};
ghost use Rattle.command_replies.specs.declared.reply.Reply.{Reply as ReplyData};
ghost use Rattle.armc_commands.specs.SearchReply.{Part, only_part, IsSearchReply, IsTold, report_of as report_of_telling, status_of};
ghost use Rattle.armc_commands.specs.SearchPromise.{SearchPromise};

use crate::summary::summary;
use armc_io::Gate;
use command_replies::{Reply, Status};
use command_words::Method;
use protocol_model::System;
use protocol_search::{
    Search, keys_bound_rounds, no_language_is_refuted_twice, runs_bound_rounds, search_system,
    verdict_text, verdicts_have_histories, verdicts_show,
};
use refinement::Verdict;
use search_history::Log;
use search_report::report;
use sequence::Sequence;
use std::alloc::{AllocError, Global};
use std::thread::Threads;

/// How the verdict of a search is told.
#[derive(Clone, Copy, Drop)]
pub enum Telling {
    /// By its certificate, and by a report that names this method where one is asked for.
    Certificate(Option<Method>),
    /// By a summary, with the number of the chain that is searched.
    Summary(u32),
}

// The status of a verdict.
fn verdict_status(verdict: &Verdict) -> Status
    ensures { result ≡ status_of (verdict.now ∷ []) }
{
    match verdict {
        Verdict::Safe { .. } => Status::Done,
        Verdict::Unsafe { .. } => Status::Unsafe,
        Verdict::Unknown { .. } => Status::Unknown,
    }
}

// The log of a verdict.
fn log_of(verdict: &Verdict) -> &Log
    ensures { result.now ≡ log_in verdict.now }
{
    match verdict {
        Verdict::Safe { log, .. } => log,
        Verdict::Unsafe { log, .. } => log,
        Verdict::Unknown { log } => log,
    }
}

// The text that tells a verdict of this search for the system.
fn told_text(
    alloc: Global,
    system: &System,
    search: Search,
    telling: Telling,
    verdict: &Verdict,
) -> Result<Vec<u8>, AllocError>
    requires most { search.budget ≤ most_budget }
    requires sound { IsSound (task_for search.analysis system.now) (proof_limit search.analysis search.budget) verdict.now }
    ensures { IfOk result (λ text. IsTold telling (record { title = None; system = system.now; search = search }) verdict.now text.items) }
{
    match telling {
        Telling::Certificate(_) => verdict_text(alloc, system, search, verdict),
        Telling::Summary(number) => summary(alloc, number, verdict),
    }
}

// The report of a log, where it is asked for, and else no text.
fn report_of(alloc: Global, telling: Telling, log: &Log) -> Result<Vec<u8>, AllocError>
    ensures { IfOk result (λ text. text.items ≡ report_of_telling telling log.now) }
{
    match telling {
        Telling::Certificate(Some(method)) => report(alloc, method, log),
        Telling::Certificate(None) => Ok(Vec::new(alloc)),
        Telling::Summary(_) => Ok(Vec::new(alloc)),
    }
}

// The reply that tells the verdict of this search for the system.
fn reply_to_verdict(
    alloc: Global,
    system: &System,
    search: Search,
    telling: Telling,
    verdict: &Verdict,
) -> Result<Reply, AllocError>
    requires most { search.budget ≤ most_budget }
    requires sound { IsSound (task_for search.analysis system.now) (proof_limit search.analysis search.budget) verdict.now }
    ensures { IsVerdictOf system.now search verdict.now → IfOk result (IsSearchReply telling (only_part system.now search)) }
{
    let out = told_text(alloc, system, search, telling, verdict)?;
    let err = report_of(alloc, telling, log_of(verdict))?;
    Ok(Reply {
        status: verdict_status(verdict),
        out: Sequence::from_vec(out),
        err: Sequence::from_vec(err),
    })
}

/// The reply of one search for the system, in 1 to 16 threads, whose verdict is told so. The only error is that memory ran out.
pub fn search_reply<G: Gate, R: Threads + Sync>(
    alloc: Global,
    runtime: &R,
    gate: &G,
    system: &System,
    search: Search,
    telling: Telling,
    workers: u32,
) -> Result<Reply, AllocError>
    requires some { 0 < search.budget }
    requires most { search.budget ≤ most_budget }
    requires workers { IsWorkers workers }
    ensures { IfOk result (IsSearchReply telling (only_part system.now search)) }
{
    let verdict = search_system(alloc, runtime, gate, system, search, workers)?;
    reply_to_verdict(alloc, system, search, telling, &verdict)
}

/// The law of replies to searches: each keeps what it promises. The function does nothing.
pub fn keep_search_promises()
    ensures { (told : Telling) (parts : List Part) (reply : ReplyData) → IsSearchReply told parts reply → SearchPromise told parts reply }
{
    verdicts_have_histories();
    verdicts_show();
    no_language_is_refuted_twice();
    keys_bound_rounds();
    runs_bound_rounds();
}
