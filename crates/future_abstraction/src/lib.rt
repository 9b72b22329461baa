//! Abstraction by languages of bounded length: states are related where they accept the same words of at most so many letters
//! (Bouajjani, Habermehl and Vojnar, CAV 2004). A refuted set makes the bound one more.
#![tactic(auto)]

mod futures;
mod laws;
mod rounds;
mod signature;

pub use futures::{Futures, classes_by_futures};
pub use laws::related_by_signature;
