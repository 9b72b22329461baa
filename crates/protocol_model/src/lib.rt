//! Protocols as systems: sections, rules and patterns by number, and the steps, runs and words that they determine.
//! Names are resolved in one pass, in constant expected time for each.
#![tactic(auto)]

mod copies;
mod facts;
mod fault;
mod law;
mod letters;
mod names;
mod renaming;
mod resolution;
mod rows;
mod rules;
mod sections;
mod system;
mod traversal;

pub use facts::{SectionLetters, is_in, table_value};
pub use fault::ModelFault;
pub use law::texts_say_allowed_protocols;
pub use names::{MAX_NAMES, is_name, is_word};
pub use resolution::resolve;
pub use rows::resolve_row;
pub use sections::{Sections, copy_text};
pub use system::{Atom, Configuration, Guard, Move, Pattern, Row, Rule, Run, Section, System};

/// Asks for a type that threads may share and that may be moved between them.
fn is_shared<T: Send + Sync>() {}

/// Threads may share systems, configurations and runs.
pub fn systems_are_shared() {
    is_shared::<System>();
    is_shared::<Configuration>();
    is_shared::<Run>();
}
