//! Abstraction by predicates: states are related where their languages meet the same languages of states of some automata
//! (Bouajjani, Habermehl and Vojnar, CAV 2004). A refuted set is one more of these automata.
#![tactic(auto)]

mod codes;
mod common_classes;
mod laws;
mod pair_set;
mod place;
mod predicate;
mod predicates;
mod shared_words;
mod shares;
mod splitting;

pub use laws::related_by_signature;
pub use predicates::Predicates;
