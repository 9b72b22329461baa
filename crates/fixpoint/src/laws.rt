//! Laws of rounds, for every problem and every abstraction: the merged automata of a round grow, and signatures bound how many there are.
//! They have no code: each is the contract of a function that does nothing.

ghost use Rattle.fixpoint.specs.Laws.{MergedAutomataGrow, SignaturesBoundRounds};

use abstraction::Abstraction;
use safety_problem::Problem;

/// Each merged automaton of a round accepts all words of the one before it and one word more. Where states are related by signatures,
/// a round has at most as many merged automata as there are sets of possible facts.
pub fn rounds_are_bounded<P: Problem, A: Abstraction>(problem: &P, _abstraction: &A)
    ensures growth { MergedAutomataGrow (P.task problem.now) A.related }
    ensures bound { SignaturesBoundRounds (P.task problem.now) A.related }
{}
