//! What holds of every list of successors and of every answer to a run.
//! The function does nothing; its contract is the law.

ghost use Rattle.protocol_steps.specs.OneAnswer.{SuccessorsAreDetermined, RunAnswerIsDetermined};

/// A configuration has one list of successors, and a run has one answer. The function does nothing.
pub fn one_answer()
    ensures successors { SuccessorsAreDetermined }
    ensures run { RunAnswerIsDetermined }
{}
