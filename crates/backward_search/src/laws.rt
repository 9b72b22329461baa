//! Laws of searches backward, for every problem and every abstraction that can be refined; the laws of searches hold of the reversed
//! problem as of any other. They have no code: each is the contract of a function that does nothing.

ghost use Rattle.backward_search.specs.Laws.{HasOneBackwardVerdict, FindsSound, IsBoundedByRunsBackward};

use abstraction::Refinable;
use minimise::canonical_is_unique;
use refinement::{one_verdict, runs_bound_rounds, verdicts_are_sound};
use safety_problem::{Problem, Reversed};

/// A problem, an abstraction, a first key and a budget have one verdict of a search backward, with one proof or run and one log.
pub fn one_backward_verdict<P: Problem, A: Refinable>(problem: &P, abstraction: &A)
    ensures { HasOneBackwardVerdict (P.task problem.now) (record { related = A.Abstraction.related; next = A.next }) }
{
    one_verdict(&Reversed::new(problem), abstraction);
    canonical_is_unique();
}

/// What a search backward finds is sound for the reversed problem: its proof accepts the bad words and, with a word, every one from which a
/// step leads to it, and no initial word; and its words lead backward from a bad word to an initial one.
pub fn found_verdicts_are_sound<P: Problem, A: Refinable>(problem: &P, abstraction: &A)
    ensures { FindsSound (P.task problem.now) (record { related = A.Abstraction.related; next = A.next }) }
{
    verdicts_are_sound(&Reversed::new(problem), abstraction);
}

/// A run of `n` steps from an initial to a bad word bounds the indices of every round of a search backward by `n`, and rules out that one
/// ends closed.
pub fn backward_runs_bound_rounds<P: Problem, A: Refinable>(problem: &P, abstraction: &A)
    ensures { IsBoundedByRunsBackward (P.task problem.now) (record { related = A.Abstraction.related; next = A.next }) }
{
    runs_bound_rounds(&Reversed::new(problem), abstraction);
}
