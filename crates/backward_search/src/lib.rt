//! Searches backward, from the bad words to the initial ones: the search of the reversed problem, with an answer that reads forward. A
//! proof found there accepts every word from which a bad one is reached and no initial word, so that its complement is a proof of the
//! problem (backward reachability, as in Abdulla, Cerans, Jonsson and Tsay, General decidability theorems, LICS 1996).
#![tactic(auto)]

mod complements;
mod laws;
mod search;

pub use laws::{backward_runs_bound_rounds, found_verdicts_are_sound, one_backward_verdict};
pub use search::search_back;
