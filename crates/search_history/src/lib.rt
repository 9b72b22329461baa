//! What a search records: the automata of a round, the count of their states against a budget, and the log of their sizes.
//! The definitions say which records are those of a search (Bouajjani, Habermehl and Vojnar, CAV 2004).
#![tactic(auto)]

mod count;
mod log;
mod round;

pub use count::Count;
pub use log::{Log, LogEnd, RoundLog};
pub use round::{Round, RoundEnd};

/// Asks for a type that threads may share and that may be moved between them.
fn is_shared<T: Send + Sync>() {}

/// Threads may share logs, and the automata of rounds.
pub fn logs_are_shared() {
    is_shared::<Log>();
    is_shared::<Round>();
}
