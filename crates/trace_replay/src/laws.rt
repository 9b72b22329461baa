//! A law of replays: what a replay finds real is a run from an initial word to a bad one. It has no code: it is the contract of a function
//! that does nothing.

ghost use Rattle.trace_replay.specs.Runs.{RealRunIsBadChain};

use safety_problem::Problem;

/// The words of the least run of a replay that ends real lead by steps from an initial word to a bad one, where the first automaton of the
/// round is that of the initial words.
pub fn real_run_is_bad_chain<P: Problem>(_problem: &P)
    ensures { RealRunIsBadChain (P.task _problem.now) }
{}
