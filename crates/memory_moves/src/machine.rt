//! Transducers that exchange what stands at the two ends of a word, and copy what lies between.
//! One state for each label of the prefix, one that copies, and one behind the suffix, if there is one.

ghost use Rattle.std.specs.Prelude.{◌≡◌, ◌↔◌, ◌+◌, ◌++◌, ◌<◌, ◌≤◌, ◌^◌, ℕ, List, All, IfOk, IfSome, OnOk, length};
ghost use Rattle.transducers.specs.Transducer.{Relates};
ghost use Rattle.memory_moves.specs.private.Machine.{IsLabel, IsCopiedBetween, chain, copying_end};

use protocol_model::SectionLetters;
use std::alloc::{AllocError, Global};
use transducers::{Label, State, Transducer, copy_edges};

/// The transducer that follows the labels of the prefix, then copies letters of the section, and then follows the label of the suffix,
/// if there is one.
pub(crate) fn copy_between(
    alloc: Global,
    prefix: &[Label],
    suffix: Option<Label>,
    alphabet: SectionLetters,
) -> Result<Transducer, AllocError>
    requires prefix { All (IsLabel alphabet.letters) prefix.now }
    requires suffix { IfSome suffix (IsLabel alphabet.letters) }
    requires fits { alphabet.offset + alphabet.count ≤ alphabet.letters }
    ensures letters { IfOk result (λ t. t.letters ≡ alphabet.letters) }
    ensures relates { IfOk result (λ t. (u w : List ℕ) → Relates t u w
        ↔ IsCopiedBetween prefix.now suffix alphabet.offset alphabet.count u w) }
{
    let mut states = chain(alloc, prefix)?;
    push_end(alloc, &mut states, suffix, alphabet)?;
    let starts = vec![in alloc; 0]?;
    Ok(Transducer::from_states(alphabet.letters, starts, states))
}

/// A state for each label, which leads to the next state.
fn chain(alloc: Global, labels: &[Label]) -> Result<Vec<State>, AllocError>
    ensures { IfOk result (λ states. states.items ≡ chain 0 labels.now) }
{
    let mut states = Vec::new(alloc);
    'labels: for (i, label) in labels.iter().enumerate() {
        let edges = vec![in alloc; (*label, i + 1)]?;
        states.push(State::new(false, edges))?;
    }
    Ok(states)
}

/// Appends the state that copies letters, and the state behind the suffix.
fn push_end(
    alloc: Global,
    states: &mut Vec<State>,
    suffix: Option<Label>,
    alphabet: SectionLetters,
) -> Result<(), AllocError>
    requires { alphabet.offset + alphabet.count < 2 ^ 32 }
    ensures { OnOk result (states.new.items ≡ states.old.items
        ++ copying_end (length states.old.items) alphabet.offset alphabet.count suffix) }
{
    let copying = states.len();
    let mut edges = copy_edges(alloc, alphabet.offset, alphabet.count, copying)?;
    match suffix {
        None => states.push(State::new(true, edges))?,
        Some(label) => {
            edges.push((label, copying + 1))?;
            states.push(State::new(false, edges))?;
            states.push(State::new(true, Vec::new(alloc)))?;
        }
    }
    Ok(())
}
