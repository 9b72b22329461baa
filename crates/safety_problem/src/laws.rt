//! A law of problems: the words after, and before, those of an automaton have one canonical automaton, whoever makes it (by the uniqueness
//! of minimal automata: J. Myhill, 1957; A. Nerode, 1958). It has no code: it is the contract of a function that does nothing.

ghost use Rattle.std.specs.Prelude.{◌≡◌};
ghost use Rattle.word_automata.specs.Automaton.{Automaton};
ghost use Rattle.safety_problem.specs.Task.{IsAutomatonOf, IsAfter, IsBefore};

use crate::Problem;
use minimise::canonical_is_unique;

/// What `post` and `pre` answer depends on the task and the automaton alone: not on how many workers made it, nor on the order in
/// which they did.
pub fn answers_are_unique<P: Problem>(p: &P)
    ensures post { (m a b : Automaton) → IsAutomatonOf (P.task p.now).letters (IsAfter (P.task p.now).steps m) a
        → IsAutomatonOf (P.task p.now).letters (IsAfter (P.task p.now).steps m) b → a ≡ b }
    ensures pre { (m a b : Automaton) → IsAutomatonOf (P.task p.now).letters (IsBefore (P.task p.now).steps m) a
        → IsAutomatonOf (P.task p.now).letters (IsBefore (P.task p.now).steps m) b → a ≡ b }
{
    canonical_is_unique();
}
