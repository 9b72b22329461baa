//! Which states have edges without a letter, so that sets of the others need no closure.
//! It takes one pass over the edges.

ghost use Rattle.std.specs.Prelude.{◌≡◌, ◌<◌, ℕ, true, false, None, Contains, IfOk, length, slice_index_or};
ghost use Rattle.determinise.specs.private.Subsets.{ArePlainWhereFalse};

use std::alloc::{AllocError, Global};
use word_automata::Nfa;

/// For each state whether it has an edge without a letter.
pub fn silent_flags(alloc: Global, automaton: &Nfa) -> Result<Vec<bool>, AllocError>
    ensures count { IfOk result (λ flags. length flags.items ≡ length automaton.now.states) }
    ensures plain { IfOk result (λ flags. ArePlainWhereFalse automaton.now flags.items) }
{
    let mut flags = Vec::with_capacity(alloc, automaton.states())?;
    'states: for state in 0..automaton.states() {
        flags.push(has_silent_edge(automaton.edges_from(state)))?;
    }
    Ok(flags)
}

/// Whether one of the edges has no letter.
fn has_silent_edge(edges: &[(Option<u32>, usize)]) -> bool
    ensures { result ≡ false → (q : ℕ) → Contains edges.now (None, q) → ⊥ }
{
    'edges: for (letter, _) in edges {
        if letter.is_none() {
            return true;
        }
    }
    false
}

/// Whether one of the flags is true.
pub fn has_true(flags: &[bool]) -> bool
    ensures { result ≡ false → (p : ℕ) → p < length flags.now → slice_index_or flags.now p true ≡ false }
{
    'flags: for flag in flags {
        if *flag {
            return true;
        }
    }
    false
}
