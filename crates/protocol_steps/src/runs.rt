//! The check of a run.
//! The steps are tested from the first on, so that the first wrong one is told; no memory is taken.

ghost use Rattle.protocol_steps.specs.Answers.{IsRunAnswer};

use crate::rows::{is_bad, is_initial};
use crate::steps::is_step;
use protocol_model::{Run, System};

/// What the check of a run found.
#[derive(Clone, Copy, PartialEq, Eq)]
pub enum RunAnswer {
    /// The run begins in an initial configuration, goes by steps of the system, and ends in a bad configuration.
    BadRun,
    /// The first configuration is not initial.
    NotInitial,
    /// The step of this number, counted from 1, does not lead from the configuration before it. All earlier steps do.
    NotStep(u64),
    /// The run begins in an initial configuration and goes by steps, but the last configuration is not bad.
    NotBad,
}

/// Checks a run: its beginning, then its steps in their order, then its end. It takes no memory.
pub fn check_run(system: &System, run: &Run) -> RunAnswer
    ensures { IsRunAnswer system.now run.now result }
{
    if !is_initial(system, &run.first) {
        return RunAnswer::NotInitial;
    }
    let mut last = &run.first;
    'steps: for (i, step) in run.steps.as_slice().iter().enumerate() {
        if !is_step(system, step.0, last, &step.1) {
            return RunAnswer::NotStep(i as u64 + 1);
        }
        last = &step.1;
    }
    if is_bad(system, last) {
        RunAnswer::BadRun
    } else {
        RunAnswer::NotBad
    }
}
