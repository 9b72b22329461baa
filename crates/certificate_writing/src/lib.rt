//! The texts of certificates: automata in either version, and runs. A text is written from front to end, and for one of version 2 the
//! letters that label an edge are found first, in a pass over the edges.
#![tactic(auto)]

mod indexed_writing;
mod letter_table;
mod run_writing;
mod writing;

pub use indexed_writing::write_safe2;
pub use run_writing::{write_run, write_unsafe};
pub use writing::{write_automaton, write_counted, write_safe, write_unknown};
