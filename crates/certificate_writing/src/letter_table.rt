//! The table of letters of a text of version 2: the letters that label an edge, and the index of each of them.
//! The edges are gone over once, and so are the letters: time is linear in both.

ghost use Rattle.std.specs.Prelude.{◌≡◌, ◌≢◌, ◌<◌, ◌||◌, ℕ, false, All, AllPairs, IfOk, length, map, slice_index_or};
ghost use Rattle.std.specs.List.{range_with_len};
ghost use Rattle.certificate_writing.specs.IndexedWriting.{has_letter, labels_edge, used_letters};
ghost use Rattle.certificate_writing.specs.private.IndexedWritingParts.{AreIndicesOf};

use std::alloc::{AllocError, Global};
use word_automata::Dfa;

/// The letters that label an edge, by increasing number.
pub fn used_letters(alloc: Global, proof: &Dfa) -> Result<Vec<u32>, AllocError>
    ensures { IfOk result (λ letters. letters.items ≡ used_letters proof.now) }
{
    let flags = letter_flags(alloc, proof)?;
    let mut letters = Vec::new(alloc);
    'letters: for letter in 0..proof.letters() {
        if flags[letter as usize] {
            letters.push(letter)?;
        }
    }
    Ok(letters)
}

/// For each letter whether it labels an edge.
fn letter_flags(alloc: Global, proof: &Dfa) -> Result<Vec<bool>, AllocError>
    ensures { IfOk result (λ flags. flags.items ≡ map (labels_edge proof.now) (range_with_len 0 proof.now.letters)) }
{
    let mut flags = vec![in alloc; false; proof.letters() as usize]?;
    'states: for state in 0..proof.states() {
        mark_letters(&mut flags, proof.edges_from(state));
    }
    Ok(flags)
}

/// Sets the flags of the letters of the edges.
fn mark_letters(flags: &mut Vec<bool>, edges: &[(u32, usize)])
    requires { All (λ edge. edge.0 < length flags.old.items) edges.now }
    ensures count { length flags.new.items ≡ length flags.old.items }
    ensures marked { (a : ℕ) → a < length flags.old.items → slice_index_or flags.new.items a false
        ≡ (slice_index_or flags.old.items a false || has_letter edges.now a) }
{
    'edges: for edge in edges {
        flags[edge.0 as usize] = true;
    }
}

/// For each of these letters, all below a count, its index among them; 0 for each other letter below the count.
pub fn indices_of(alloc: Global, letters: &[u32], count: u32) -> Result<Vec<usize>, AllocError>
    requires in_range { All (λ a. a < count) letters.now }
    requires distinct { AllPairs ◌≢◌ letters.now }
    ensures { IfOk result (λ indices. AreIndicesOf letters.now count indices.items) }
{
    let mut indices = vec![in alloc; 0; count as usize]?;
    'letters: for index in 0..letters.len() {
        indices[letters[index] as usize] = index;
    }
    Ok(indices)
}
