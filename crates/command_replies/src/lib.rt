//! What a call answers, whatever its command: the exit status and two texts, the lines of refusals and failures, how a text of a protocol
//! is read, and how a reply is delivered. A line costs its length, and a delivery the length of its texts.
#![tactic(auto)]

mod delivery;
mod failure;
mod line;
mod reading;
mod refusal;
mod reply;
mod status;

pub use delivery::deliver;
pub use failure::Failure;
pub use line::{line_of, rule_name};
pub use reading::{Reading, read_protocol, refused_by_grammar, refused_by_names};
pub use refusal::{Refusal, configuration_refusal_line};
pub use reply::{Reply, certificate_refusal, failure_reply, on_err, on_out, refusal_reply, usage};
pub use status::Status;
