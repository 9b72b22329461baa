//! Searches for many properties of one protocol, side by side: the list of properties is cut into halves, one for each side of a fork,
//! and each search is one of its own. Together they cost what the single searches cost, over the number of workers.
#![tactic(auto)]

mod law;
mod searches;

pub use law::{one_list_of_verdicts, property_verdicts_show, verdicts_by_number};
pub use searches::search_all;
