//! Canonical automata: minimal, numbered breadth first, and equal as data exactly where their languages are equal. Classes of states are
//! refined by hashes of signatures, in one pass where each edge leads to a later state (D. Revuz, 1992), and where rounds are many by
//! splitters (J. Hopcroft, 1971); a pass sees that they are stable.
//! A deterministic automaton is minimised in time linear in its edges times the logarithm of its states, up to sorting.
#![tactic(auto)]

mod acyclic;
mod breadth_first;
mod canon;
mod growth;
mod hashing;
mod laws;
mod numbering;
mod parts;
mod refinement;
mod rows;
mod signature;
mod splitters;
mod stability;

pub use canon::{Canon, canonical, canonical_nfa, known_canonical, same};
pub use laws::{canonical_is_least, canonical_is_unique};
pub use refinement::split;

/// Asks for a type that threads may share and that may be moved between them.
fn is_shared<T: Send + Sync>() {}

/// Threads may share canonical automata.
pub fn canonical_automata_are_shared() {
    is_shared::<Canon>();
}
