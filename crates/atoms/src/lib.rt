//! Which states accept a word, for all words at once: the atoms of the languages of states (J. A. Brzozowski and H. Tamm, Theory of
//! átomata, 2014), up to unions. They tell which sets of states accept the same words, and are found by subsets backward from the
//! accepting states (J. A. Brzozowski, 1962), without those that are unions of others (F. Denis, A. Lemay and A. Terlutte, 2001).
#![tactic(auto)]

mod family;
mod holders;
mod preimages;
mod rows;
mod search;
mod turned_edges;

pub use rows::Atoms;
pub use search::AtomSearch;
