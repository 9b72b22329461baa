//! Abstraction by pasts of bounded length: states are related where the same words of at most so many letters lead into them. A refuted
//! set makes the bound one more.
#![tactic(auto)]

mod classes;
mod construction;
mod images;
mod past_automaton;
mod pasts;
mod preimages;
mod word_sets;

pub use pasts::Pasts;
