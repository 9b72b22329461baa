//! What is searched: which analysis of a system, from which abstraction, and within which budget. These are plain values, which are copied,
//! so that a law can speak of every search.

use crate::first::FirstAbstraction;

/// Which problem of a system is searched, and from which end.
#[derive(Clone, Copy, Drop)]
pub enum Analysis {
    /// From the initial configurations by steps to a bad one.
    Forward,
    /// The same, by rounds from the bad configurations back to an initial one.
    Backward,
    /// From the initial configurations by steps to one from which no rule leads.
    Stuck,
}

/// What is searched.
#[derive(Clone, Copy, Drop)]
pub struct Search {
    /// The problem of the system.
    pub analysis: Analysis,
    /// The abstraction that the search begins with.
    pub first: FirstAbstraction,
    /// How many states are counted at most, from 1 to 1,000,000.
    pub budget: u64,
}
