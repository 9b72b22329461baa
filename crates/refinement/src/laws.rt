//! Laws of searches, for every problem and every abstraction that can be refined. They have no code: each is the contract of a function
//! that does nothing.

ghost use Rattle.refinement.specs.Bounds.{AreBoundedByKeys};
ghost use Rattle.refinement.specs.Exclusion.{RefutesOnce};
ghost use Rattle.refinement.specs.Laws.{HasOneHistory, HasOneVerdict, HasSoundVerdicts, KeepsWithBudget, IsBoundedByRuns};

use abstraction::{Excluding, Refinable};
use safety_problem::Problem;

/// A problem, an abstraction, a first key and a budget have one history.
pub fn one_history<P: Problem, A: Refinable>(problem: &P, _abstraction: &A)
    ensures { HasOneHistory (P.task problem.now) (record { related = A.Abstraction.related; next = A.next }) }
{}

/// They have one verdict, with one log.
pub fn one_verdict<P: Problem, A: Refinable>(problem: &P, _abstraction: &A)
    ensures { HasOneVerdict (P.task problem.now) (record { related = A.Abstraction.related; next = A.next }) }
{}

/// Each verdict is sound: its proof is one of the problem, with fewer states than the budget, and its words are those of a run.
pub fn verdicts_are_sound<P: Problem, A: Refinable>(problem: &P, _abstraction: &A)
    ensures { HasSoundVerdicts (P.task problem.now) (record { related = A.Abstraction.related; next = A.next }) }
{}

/// A history that decides the problem is the history for every larger budget.
pub fn larger_budget_keeps_history<P: Problem, A: Refinable>(problem: &P, _abstraction: &A)
    ensures { KeepsWithBudget (P.task problem.now) (record { related = A.Abstraction.related; next = A.next }) }
{}

/// A run of `n` steps from an initial to a bad word bounds the indices of every round by `n`, and rules out that one ends closed.
pub fn runs_bound_rounds<P: Problem, A: Refinable>(problem: &P, _abstraction: &A)
    ensures { IsBoundedByRuns (P.task problem.now) (record { related = A.Abstraction.related; next = A.next }) }
{}

/// Each round is bounded by its key, where the keys relate states by signatures.
pub fn keys_bound_rounds<P: Problem, A: Refinable>(problem: &P, _abstraction: &A)
    ensures { AreBoundedByKeys (P.task problem.now) (record { related = A.Abstraction.related; next = A.next }) }
{}

/// A set that a round refutes stays out of every later round, and no later one refutes its language again.
pub fn no_language_is_refuted_twice<P: Problem, A: Excluding>(problem: &P, _abstraction: &A)
    ensures { RefutesOnce (P.task problem.now) (record { related = A.Refinable.related; next = A.Refinable.next }) }
{}
