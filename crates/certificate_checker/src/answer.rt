//! What the judgement of a certificate answers.
//! A part that fails is told with the least configurations that show it.

use protocol_model::Configuration;

/// What the judgement of a certificate finds.
#[derive(Drop)]
pub enum Answer {
    /// The automaton proves the system, or the run is a bad run.
    Valid,
    /// The automaton refuses this initial configuration, the least one that it refuses.
    InitialMissing(Configuration),
    /// The automaton accepts this bad configuration, the least one that it accepts.
    BadHeld(Configuration),
    /// The rule of this number leads from an accepted configuration to one that the automaton refuses.
    Leaves {
        /// The least rule that does.
        rule: u32,
        /// The least accepted configuration from which the rule leads to `after`.
        before: Configuration,
        /// The least refused configuration to which the rule leads from an accepted one.
        after: Configuration,
    },
    /// The first configuration of the run is not initial.
    NotInitial,
    /// The step of this number, counted from 1, is the first that no rule as named makes.
    NotStep(u64),
    /// The last configuration of the run is not bad.
    NotBad,
}
