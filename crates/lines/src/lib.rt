//! Lines of texts: grammars over the bytes of a line, said once in `specs/`, and values that read what they mean.
//! A line is cut at its separators from the left, in time linear in its bytes.
#![tactic(auto)]

mod bytes;
mod fault;
mod form;
mod law;
mod names;
mod numbers;
mod parts;
mod text;

pub use fault::Fault;
pub use form::Form;
pub use law::one_meaning;
pub use names::{Names, Numbered};
pub use numbers::Number;
pub use parts::{Case, Cut, Fields, FormOf, Just, Means, Meant, NoLine, OrEmpty, read_each};
pub use text::{Next, TextForm, one_answer, read_text};
