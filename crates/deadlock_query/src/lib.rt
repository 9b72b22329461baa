//! Deadlocks: the words of the configurations from which no rule leads anywhere. They are what is left of the words of all configurations
//! without the words before a step, which a problem with the system's steps makes.
#![tactic(auto)]

mod stuck;

pub use stuck::stuck_words;
