//! Properties of a protocol: the rows of bad configurations that a second text names, each property as a system of its own.
//! The blocks of one name are the rows of one property; a block is compared with those before it, at the square of their number in all.
#![tactic(auto)]

mod law;
mod properties;
mod sections;

pub use law::texts_say_allowed_properties;
pub use properties::{Property, resolve_properties};

/// Asks for a type that threads may share and that may be moved between them.
fn is_shared<T: Send + Sync>() {}

/// Threads may share properties.
pub fn properties_are_shared() {
    is_shared::<Property>();
}
