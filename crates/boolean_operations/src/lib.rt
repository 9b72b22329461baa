//! Boolean operations on the languages of deterministic automata, by products (M. O. Rabin and D. Scott, 1959), and their least words, by
//! searches breadth first. Each takes time linear in what is reached of the product, but for complements, which have an edge for each
//! letter at each state.
#![tactic(auto)]

mod complementation;
mod dead_states;
mod finite_automaton;
mod graph;
mod inclusion;
mod least_words;
mod merged_edges;
mod optional_states;
mod products;
mod search;
mod spelling;

pub use complementation::complement;
pub use finite_automaton::FiniteAutomaton;
pub use inclusion::{included, least_common_word};
pub use least_words::{is_empty, least_word};
pub use merged_edges::search_near;
pub use products::{difference, intersect, union};
pub use spelling::single_word;
