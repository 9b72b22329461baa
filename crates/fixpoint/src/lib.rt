//! One round of the search: from the automaton of the initial words on, each automaton is merged, and the words to which a step leads
//! from there are added, until no step leads out, a bad word is met, or the budget is spent
//! (Bouajjani, Habermehl and Vojnar, Abstract Regular Model Checking, CAV 2004).
#![tactic(auto)]

mod index;
mod known;
mod laws;
mod outcome;
mod rounds;

pub use known::{KnownRound, no_round};
pub use laws::rounds_are_bounded;
pub use outcome::RoundOutcome;
pub use rounds::round;
