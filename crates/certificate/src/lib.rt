//! Certificates as texts, and what they mean: automata, of either version, and runs.
//! A text is read in one pass, line by line, by forms that are said once in `specs/`.
#![tactic(auto)]

mod alphabet;
mod configurations;
mod fault;
mod line_forms;
mod reading;
mod safe;
mod said;
mod words;

pub use alphabet::Alphabet;
pub use fault::CertFault;
pub use safe::{Certificate, one_reading, read};
