//! The summary of a search of the chain of some number: a line for the number, the verdict, the rounds and the counted states each, and two
//! for the size of a proof. It costs what its bytes cost.

ghost use Rattle.std.specs.Prelude.{◌≡◌, ◌++◌, IfOk, OnOk, codes, string_bytes};
ghost use Rattle.command_replies.specs.Line.{line};
ghost use Rattle.armc_commands.specs.Summary.{search_lines, proof_lines, summary as summary_of};

use minimise::Canon;
use refinement::Verdict;
use search_history::Log;
use std::alloc::{AllocError, Global};

// Writes the lines of the number, the verdict, and the rounds and the sum of the log.
fn write_search(text: &mut String, number: u32, verdict: &str, log: &Log) -> Result<(), AllocError>
    ensures { OnOk result (string_bytes text.new ≡ string_bytes text.old
        ++ search_lines number (line (codes "verdict " ++ verdict.now)) log.now) }
{
    let rounds = log.rounds.len();
    let counted = log.counted;
    writeln!(
        text,
        "gen {number}\nverdict {verdict}\nrounds {rounds}\ncounted {counted}"
    )
}

// Writes the lines of the states and the edges of the proof.
fn write_proof(text: &mut String, proof: &Canon) -> Result<(), AllocError>
    ensures { OnOk result (string_bytes text.new ≡ string_bytes text.old ++ proof_lines proof.now) }
{
    let automaton = proof.as_dfa();
    let states = automaton.states();
    let edges = automaton.edges();
    writeln!(text, "states {states}\nedges {edges}")
}

/// The summary of the verdict on the chain of this number. The only error is that memory ran out.
pub fn summary(alloc: Global, number: u32, verdict: &Verdict) -> Result<Vec<u8>, AllocError>
    ensures { IfOk result (λ text. text.items ≡ summary_of number verdict.now) }
{
    let mut text = String::new(alloc);
    match verdict {
        Verdict::Safe { proof, log } => {
            write_search(&mut text, number, "safe", log)?;
            write_proof(&mut text, proof)?;
        }
        Verdict::Unsafe { log, .. } => write_search(&mut text, number, "unsafe", log)?,
        Verdict::Unknown { log } => write_search(&mut text, number, "unknown", log)?,
    }
    Ok(text.into_bytes())
}
