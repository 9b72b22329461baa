//! What it means for a system that an automaton proves it, and how many answers a certificate has.
//! The functions do nothing; their contracts are the laws.

ghost use Rattle.word_automata.specs.Automaton.{Automaton};
ghost use Rattle.protocol_model.specs.System.{SystemData};
ghost use Rattle.certificate_checker.specs.Proof.{Proves, IsSafe};
ghost use Rattle.certificate_checker.specs.OneAnswer.{AnswerIsDetermined};

use protocol_steps::one_answer as one_answer_to_a_run;

/// The law of certificates: no run, of any length, of a system that some automaton proves is a bad run. The function does nothing.
pub fn proofs_are_sound()
    ensures { (s : SystemData) (m : Automaton) → Proves s m → IsSafe s }
{}

/// A certificate has one answer. The function does nothing.
pub fn one_answer()
    ensures { AnswerIsDetermined }
{
    one_answer_to_a_run();
}
