//! The report of a search: the sizes that it counted and how each round ended, as one line of JSON (RFC 8259). It takes time linear in
//! the log.
#![tactic(auto)]

mod writing;

pub use writing::report;
