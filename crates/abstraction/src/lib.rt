//! Abstractions of automata: related states are merged, so that the merged automaton accepts at least the words of the old one
//! (Bouajjani, Habermehl and Vojnar, CAV 2004). What relates states, and how it is refined, is left to implementations.
#![tactic(auto)]

mod abstractions;
mod class_automaton;
mod class_numbers;
mod laws;
mod merging;
mod partition;

pub use abstractions::{Abstraction, Excluding, Refinable};
pub use class_numbers::{are_single, first_states};
pub use laws::one_merged_language;
pub use merging::{Merged, merge, merge_after, merge_related};
pub use partition::Partition;
