//! Deterministic automata from transition systems whose states are values of any type.
//!
//! A product, a union or a complement is a [`TransitionSystem`], told by its steps. A subset construction is a
//! [`LanguageSystem`], told by the languages of its states alone. [`explore`] and [`explore_languages`] go through the states that
//! are reached, breadth first, and number them in the order in which they find them; an [`Exploration`] can be stopped and gone on
//! with. [`Incoming`] has the edges of an automaton by the
//! states that they lead to.
#![tactic(auto)]

mod construction;
mod found_states;
mod incoming;
mod language_system;
mod number_hasher;
mod place_table;
mod state_table;
mod stepwise;
mod transition_system;

pub use construction::{Exploration, explore, explore_languages};
pub use found_states::FoundStates;
pub use incoming::Incoming;
pub use language_system::LanguageSystem;
pub use transition_system::TransitionSystem;
