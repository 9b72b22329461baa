//! Which configurations fit a system, which are initial and which are bad; steps, the check of a run, and all successors.
//! What only tests takes no memory.
#![tactic(auto)]

mod all_steps;
mod combinations;
mod configurations;
mod enabled;
mod law;
mod moves;
mod options;
mod rows;
mod runs;
mod steps;

pub use all_steps::successors;
pub use configurations::fits;
pub use law::one_answer;
pub use rows::{is_bad, is_initial};
pub use runs::{RunAnswer, check_run};
pub use steps::is_step;
