//! Smaller nondeterministic automata of the same words: without edges to states from which no word is accepted, without edges without
//! a letter where these reach few states, and without edges and states that others simulate. [`live_part`] takes time linear in the
//! edges, up to sorting; [`simulation`], which compares a bounded number of pairs of states, finds what [`pruned`] leaves out, and which
//! states of a set may be left out.
#![tactic(auto)]

mod copying;
mod emptiness;
mod order;
mod pruning;
mod renumbering;
mod silent_edges;
mod simulation_search;
mod state_pairs;
mod traces;
mod trimming;

pub use pruning::pruned;
pub use simulation_search::{is_below, simulation};
pub use state_pairs::StatePairs;
pub use trimming::live_part;
