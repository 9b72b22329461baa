//! Transducers that relate words to themselves: one or two states, with an edge for each letter that is copied. They take time linear in
//! the number of these letters.

ghost use Rattle.std.specs.Prelude.{◌≡◌, ◌↔◌, ◌+◌, ◌^◌, ◌<◌, ◌≤◌, ℕ, List, [], ◌∷◌, All, IfOk};
ghost use Rattle.transducers.specs.Transducer.{Relates};
ghost use Rattle.transducers.specs.Combination.{copy_edges};

use crate::{Label, Transducer, TransducerBuilder};
use std::alloc::{AllocError, Global};

/// The edges to the state `to` that copy a letter, one for each of the `count` letters from `offset` on.
pub fn copy_edges(
    alloc: Global,
    offset: u32,
    count: u32,
    to: usize,
) -> Result<Vec<(Label, usize)>, AllocError>
    requires { offset + count < 2 ^ 32 }
    ensures { IfOk result (λ edges. edges.items ≡ copy_edges offset count to) }
{
    (offset..offset + count)
        .map(|a| {
            (
                Label {
                    read: Some(a),
                    write: Some(a),
                },
                to,
            )
        })
        .collect(alloc)
}

/// The transducer that relates each word over the `count` letters from `offset` on to itself.
pub fn copy_any(
    alloc: Global,
    letters: u32,
    offset: u32,
    count: u32,
) -> Result<Transducer, AllocError>
    requires { offset + count ≤ letters }
    ensures letters { IfOk result (λ t. t.letters ≡ letters) }
    ensures copies { IfOk result (λ t. (u w : List ℕ) → Relates t u w ↔ ((u ≡ w) × All (λ a. (offset ≤ a) × (a < offset + count)) u)) }
{
    let mut builder = TransducerBuilder::new(alloc, letters);
    let state = builder.state(true)?;
    builder.start(state)?;
    let edges = copy_edges(alloc, offset, count, state)?;
    builder.edges(state, edges.as_slice())?;
    Ok(builder.finish())
}

/// The transducer that relates each word of one letter, of the `count` letters from `offset` on, to itself.
pub fn copy_one(
    alloc: Global,
    letters: u32,
    offset: u32,
    count: u32,
) -> Result<Transducer, AllocError>
    requires { offset + count ≤ letters }
    ensures letters { IfOk result (λ t. t.letters ≡ letters) }
    ensures copies { IfOk result (λ t. (u w : List ℕ) → Relates t u w
        ↔ ((a : ℕ) × (offset ≤ a) × (a < offset + count) × (u ≡ a ∷ []) × (w ≡ a ∷ []))) }
{
    let mut builder = TransducerBuilder::new(alloc, letters);
    let first = builder.state(false)?;
    let last = builder.state(true)?;
    builder.start(first)?;
    let edges = copy_edges(alloc, offset, count, last)?;
    builder.edges(first, edges.as_slice())?;
    Ok(builder.finish())
}
