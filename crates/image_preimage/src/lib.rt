//! Images and preimages of sets of words under transducers, and what two automata have in common, by products of a transducer and an
//! automaton (Rabin and Scott, 1959). They take time linear in the edges of the transducer at the pairs that are reached, and what it costs
//! to make the result canonical.
#![tactic(auto)]

mod common;
mod copying_states;
mod gap;
mod images;
mod inclusion;
mod pairs;
mod triples;

pub use common::common_automaton;
pub use copying_states::FlaggedTransducer;
pub use images::{image, image_automaton, preimage, preimage_automaton};
pub use inclusion::is_image_included;
