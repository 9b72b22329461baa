//! The text that tells a verdict: an automaton, a run by least rules, or the counted states, as a certificate, or of a search for deadlocks
//! under a first line of its own. It costs the length of the text, and for each step of a run one test of each rule up to the least one
//! that makes it.

ghost use Rattle.std.specs.Prelude.{◌≤◌, IfOk};
ghost use Rattle.protocol_problem.specs.SystemTask.{task_of, deadlock_task};
ghost use Rattle.refinement.specs.Verdicts.{IsSound};
ghost use Rattle.protocol_search.specs.Analyses.{task_for, proof_limit, IsCertificateText, IsVerdictText};
ghost use Rattle.protocol_search.specs.Deadlocks.{IsDeadlockText};

use crate::runs::run_through;
use crate::search::{Analysis, Search};
use certificate_writing::{
    write_automaton, write_counted, write_run, write_safe, write_unknown, write_unsafe,
};
use protocol_model::System;
use refinement::Verdict;
use std::alloc::{AllocError, Global};

/// The text of a verdict of this search for the system. The only error is to be out of memory.
pub fn verdict_text(
    alloc: Global,
    system: &System,
    search: Search,
    verdict: &Verdict,
) -> Result<Vec<u8>, AllocError>
    requires most { search.budget ≤ 1000000 }
    requires sound { IsSound (task_for search.analysis system.now) (proof_limit search.analysis search.budget) verdict.now }
    ensures { IfOk result (λ text. IsVerdictText search.analysis system.now verdict.now text.items) }
{
    match search.analysis {
        Analysis::Forward => certificate_text(alloc, system, search.budget, verdict),
        Analysis::Backward => certificate_text(alloc, system, search.budget + 1, verdict),
        Analysis::Stuck => deadlock_text(alloc, system, search.budget, verdict),
    }
}

/// The certificate of a verdict, whose proof has fewer states than the limit.
fn certificate_text(
    alloc: Global,
    system: &System,
    limit: u64,
    verdict: &Verdict,
) -> Result<Vec<u8>, AllocError>
    requires most { limit ≤ 1000001 }
    requires sound { IsSound (task_of system.now) limit verdict.now }
    ensures { IfOk result (λ text. IsCertificateText system.now verdict.now text.items) }
{
    match verdict {
        Verdict::Safe { proof, .. } => write_safe(alloc, system, proof.as_dfa()),
        Verdict::Unsafe { words, .. } => {
            let run = run_through(alloc, system, words.as_slice())?;
            write_unsafe(alloc, system, &run)
        }
        Verdict::Unknown { log } => write_unknown(alloc, log.counted, log.budget),
    }
}

/// The text of a verdict of a search for deadlocks, whose automaton has fewer states than the limit.
fn deadlock_text(
    alloc: Global,
    system: &System,
    limit: u64,
    verdict: &Verdict,
) -> Result<Vec<u8>, AllocError>
    requires { IsSound (deadlock_task system.now) limit verdict.now }
    ensures { IfOk result (λ text. IsDeadlockText system.now verdict.now text.items) }
{
    match verdict {
        Verdict::Safe { proof, .. } => {
            write_automaton(alloc, "deadlock free", system, proof.as_dfa())
        }
        Verdict::Unsafe { words, .. } => {
            let run = run_through(alloc, system, words.as_slice())?;
            write_run(alloc, "deadlock", system, &run)
        }
        Verdict::Unknown { log } => write_counted(alloc, "unknown", log.counted, log.budget),
    }
}
