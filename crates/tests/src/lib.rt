//! Tests of the public calls that the program does not make, of reads and writes that fail, and of threads.
//!
//! What the program does is shown by whole runs of it, in the folder `tests` at the top. Each function here is proved before it is
//! run, so they are short, and a text is read rather than a system built.
#![tactic(auto)]

#[cfg(test)]
mod automata;
#[cfg(test)]
mod calls;
#[cfg(test)]
mod canonical_automata;
#[cfg(test)]
mod configurations;
#[cfg(test)]
mod failing_calls;
#[cfg(test)]
mod gates;
#[cfg(test)]
mod images;
#[cfg(test)]
mod large_automata;
#[cfg(test)]
mod moves;
#[cfg(test)]
mod outside;
mod systems;
#[cfg(test)]
mod threads;
#[cfg(test)]
mod whole_searches;

pub use systems::read_system;
