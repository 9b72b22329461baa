//! Forms of texts: grammars over tokens, said once in `specs/`, and values that read what they mean.
//! They read by recursive descent, where the next token tells how to go on, in time linear in the tokens.
#![tactic(auto)]

mod concatenation;
mod each;
mod fault;
mod form;
mod law;
mod name;
mod one;
mod repeated;
mod several;
mod source;
mod symbol;
mod whole;

pub use concatenation::{Behind, Ended, NonEmpty, Then};
pub use each::{FormOf, read_each};
pub use fault::{SyntaxFault, What};
pub use form::Form;
pub use law::one_reading;
pub use name::{MAX_NAME_BYTES, Name};
pub use one::{ARROW, AnyName, BRACE_LEFT, BRACE_RIGHT, COLON, Means, OneOf, SEMICOLON, Sign};
pub use repeated::{Item, Items, Many, UpTo, read_many};
pub use several::{Only, Optional, Or, OrEmpty};
pub use source::{Source, push, with_first};
pub use symbol::{Keyword, Symbol, keyword_of};
pub use whole::parse;
