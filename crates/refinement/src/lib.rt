//! The search: rounds, each refined by what the replay of its suspected trace refuted, until one ends otherwise
//! (Bouajjani, Habermehl and Vojnar, Abstract Regular Model Checking, CAV 2004).
#![tactic(auto)]

mod laws;
mod logs;
mod rounds;
mod verdict;

pub use laws::{
    keys_bound_rounds, larger_budget_keeps_history, no_language_is_refuted_twice, one_history,
    one_verdict, runs_bound_rounds, verdicts_are_sound,
};
pub use rounds::search;
pub use verdict::Verdict;

/// Asks for a type that threads may share and that may be moved between them.
fn is_shared<T: Send + Sync>() {}

/// Threads may share verdicts.
pub fn verdicts_are_shared() {
    is_shared::<Verdict>();
}
