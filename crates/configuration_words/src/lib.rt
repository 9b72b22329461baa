//! Configurations as words over the letters of a system's automata, and as texts.
//! Words and texts are read and written in one pass.
#![tactic(auto)]

mod decoding;
mod encoding;
mod fault;
mod law;
mod reading;
mod texts;

pub use decoding::decode;
pub use encoding::encode;
pub use fault::ConfigFault;
pub use law::one_reading;
pub use reading::read_configuration;
pub use texts::configuration_text;
