//! Rules of a system as transducers: the transducer of a rule relates the words of configurations before and after its steps.
//! Its states are those of the transducers of its sections, one for each section.
#![tactic(auto)]

mod laws;
mod rules;
mod sections;

pub use laws::word_steps_are_rule_steps;
pub use rules::{compile, compile_rule};
