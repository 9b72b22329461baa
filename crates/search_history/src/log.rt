//! The log of a search: sizes of automata, and how each round ended.
//! It has a number for each counted automaton.

use sequence::Sequence;

/// How a round ends.
#[derive(Clone, Copy, Drop)]
pub enum LogEnd {
    /// Its last merged automaton accepts no bad word, and no step leads out of it.
    Closed,
    /// The suspected trace is none: the set of a level meets no word of the automaton there.
    Refuted,
    /// The suspected trace leads back to an initial word.
    Real,
    /// The count reached the budget.
    Spent,
}

/// The sizes of a round's automata in counting order.
#[derive(Drop)]
pub struct RoundLog {
    /// The sizes of the automata before merging, by their index.
    pub n: Sequence<u64>,
    /// The sizes of the merged automata, by their index.
    pub m: Sequence<u64>,
    /// The sizes of the sets of the replay, from the highest level down.
    pub x: Sequence<u64>,
    /// How the round ended.
    pub end: LogEnd,
    /// The index of the last counted automaton.
    pub level: u64,
}

/// The log of a whole search.
#[derive(Drop)]
pub struct Log {
    /// The budget.
    pub budget: u64,
    /// The sum of all sizes.
    pub counted: u64,
    /// The rounds in their order.
    pub rounds: Sequence<RoundLog>,
}
