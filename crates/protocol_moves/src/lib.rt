//! Moves and patterns on one list of letters: which lists a pattern matches, and from which list a move leads to which.
//! What only tests takes no memory.
#![tactic(auto)]

mod enabled;
mod extent;
mod letter_list;
mod moves;
mod patterns;
mod results;

pub use enabled::is_enabled;
pub use letter_list::LetterList;
pub use moves::{is_equal, is_move};
pub use patterns::atoms_match;
pub use results::{copied, move_results};
