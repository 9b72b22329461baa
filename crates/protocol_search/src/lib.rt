//! The search for a system: its verdict, with its log, and the text that tells it. The rules are compiled, the search runs over their
//! images, and what it finds is written: a proof, a run by least rules, or the counted states.
#![tactic(auto)]

mod first;
mod law;
mod runs;
mod search;
mod searching;
mod telling;

pub use first::FirstAbstraction;
pub use law::{
    keys_bound_rounds, larger_budget_keeps_verdict, no_language_is_refuted_twice, one_history,
    one_verdict, runs_bound_rounds, verdicts_have_histories, verdicts_show,
};
pub use search::{Analysis, Search};
pub use searching::search_system;
pub use telling::verdict_text;
