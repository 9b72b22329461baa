//! The judgement of certificates: whether an automaton proves that a system is safe, and whether a run is a bad run. It searches
//! for nothing but the least configurations that speak against a certificate.
#![tactic(auto)]

mod answer;
mod judgement;
mod law;

pub use answer::Answer;
pub use judgement::check_certificate;
pub use law::{one_answer, proofs_are_sound};
