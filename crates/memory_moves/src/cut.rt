//! Transducers that take one letter out of a list, and copy the others.
//! Two states, before the letter and behind it, whatever the number of letters.

ghost use Rattle.std.specs.Prelude.{◌≡◌, ◌↔◌, ◌+◌, ◌++◌, ◌<◌, ◌≤◌, ◌^◌, ℕ, List, All, IfOk, OnOk};
ghost use Rattle.protocol_model.specs.System.{AllBelow};
ghost use Rattle.protocol_model.specs.Moves.{IsLoss};
ghost use Rattle.protocol_model.specs.Raised.{IsRaisedMove};
ghost use Rattle.transducers.specs.Transducer.{Relates};
ghost use Rattle.memory_moves.specs.private.Machine.{cut_edges, cutting_states};

use crate::reading;
use protocol_model::SectionLetters;
use std::alloc::{AllocError, Global};
use transducers::{Label, State, Transducer, copy_edges};

/// The transducer over `alphabet.letters` letters that relates a list before and after one letter of the set leaves it, wherever it
/// stands, each letter raised by `alphabet.offset`. The section has `alphabet.count` letters. `AllocError` where memory runs out.
pub fn compile_cut(
    alloc: Global,
    set: &[u32],
    alphabet: SectionLetters,
) -> Result<Transducer, AllocError>
    requires valid { AllBelow alphabet.count set.now }
    requires fits { alphabet.offset + alphabet.count ≤ alphabet.letters }
    ensures letters { IfOk result (λ t. t.letters ≡ alphabet.letters) }
    ensures relates { IfOk result (λ t. (u w : List ℕ) → Relates t u w
        ↔ IsRaisedMove (IsLoss set.now) alphabet.offset alphabet.count u w) }
{
    let states = cutting_states(alloc, set, alphabet)?;
    let starts = vec![in alloc; 0]?;
    Ok(Transducer::from_states(alphabet.letters, starts, states))
}

/// The state before the letter that leaves, and the state behind it.
fn cutting_states(
    alloc: Global,
    set: &[u32],
    alphabet: SectionLetters,
) -> Result<Vec<State>, AllocError>
    requires below { All (λ a. a < alphabet.count) set.now }
    requires fits { alphabet.offset + alphabet.count < 2 ^ 32 }
    ensures { IfOk result (λ states. states.items ≡ cutting_states set.now alphabet.offset alphabet.count) }
{
    let mut before = copy_edges(alloc, alphabet.offset, alphabet.count, 0)?;
    push_cuts(&mut before, set, alphabet)?;
    let behind = copy_edges(alloc, alphabet.offset, alphabet.count, 1)?;
    Ok(vec![in alloc; State::new(false, before), State::new(true, behind)]?)
}

/// Appends an edge to the second state for each letter of the set, which is read and not written.
fn push_cuts(
    edges: &mut Vec<(Label, usize)>,
    set: &[u32],
    alphabet: SectionLetters,
) -> Result<(), AllocError>
    requires below { All (λ a. a < alphabet.count) set.now }
    requires fits { alphabet.offset + alphabet.count < 2 ^ 32 }
    ensures { OnOk result (edges.new.items ≡ edges.old.items ++ cut_edges alphabet.offset set.now 1) }
{
    'letters: for letter in set {
        edges.push((reading(*letter + alphabet.offset), 1))?;
    }
    Ok(())
}
