//! The commands of the program. A call reads the texts that its words name, in their order; makes one reply, of a status and two texts; and
//! puts the texts, each at once. It costs what the command costs: a layout, a list of successors, a judgement, a search.
#![tactic(auto)]

mod call;
mod commands;
mod law;
mod origin;
mod outcome;
mod search_reply;
mod summary;

pub use call::run;
pub use command_replies::Status;
pub use law::{
    bad_run_rules_out_safe, generate_is_never_refused, larger_budget_keeps_reply, one_reply,
    replies_keep_promises, workers_keep_reply,
};
