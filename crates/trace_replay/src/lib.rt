//! The backward replay of a suspected trace: from the bad words of the last merged automaton back, level by level, until a set misses
//! the automaton of its level, or the initial words are met, or the budget is spent (Bouajjani, Habermehl and Vojnar, CAV 2004).
#![tactic(auto)]

mod backward;
mod laws;
mod least_run;
mod results;

pub use backward::replay;
pub use laws::real_run_is_bad_chain;
pub use results::{Replay, ReplayEnd};
