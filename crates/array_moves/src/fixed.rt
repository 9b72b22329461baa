//! The moves that change two positions.
//! Each machine has three or four states, which copy the other positions.

ghost use Rattle.std.specs.Prelude.{◌≡◌, ◌↔◌, ◌≤◌, ◌<◌, ◌+◌, ◌^◌, ◌∷◌, List, [], ℕ, IfOk, map};
ghost use Rattle.protocol_model.specs.System.{AllBelow, IsValidMove};
ghost use Rattle.protocol_model.specs.Moves.{IsMove};
ghost use Rattle.transducers.specs.Transducer.{Relates};
ghost use Rattle.protocol_model.specs.Raised.{IsRaisedMove};
ghost use Rattle.array_moves.specs.private.Fixed.{exchange_edge, copying_state, pair_states, ring_states, two_states, fixed_states, ChangesTwoPositions};

use protocol_model::{Move, SectionLetters};
use std::alloc::{AllocError, Global};
use transducers::{Label, State, Transducer, copy_edges};

/// The machine for a move that changes two positions: two neighbours, the last letter and the first one, or any two in
/// either order.
pub(crate) fn compile_fixed(
    alloc: Global,
    step: &Move,
    alphabet: SectionLetters,
) -> Result<Transducer, AllocError>
    requires two { ChangesTwoPositions step.now }
    requires valid { IsValidMove alphabet.count step.now }
    requires fits { alphabet.offset + alphabet.count ≤ alphabet.letters }
    ensures letters { IfOk result (λ t. t.letters ≡ alphabet.letters) }
    ensures relates { IfOk result (λ t. (u w : List ℕ) → Relates t u w
        ↔ IsRaisedMove (IsMove step.now) alphabet.offset alphabet.count u w) }
{
    let states = fixed_states(alloc, step, alphabet)?;
    let starts = vec![in alloc; 0]?;
    Ok(Transducer::from_states(alphabet.letters, starts, states))
}

/// The states of the machine.
fn fixed_states(
    alloc: Global,
    step: &Move,
    alphabet: SectionLetters,
) -> Result<Vec<State>, AllocError>
    requires two { ChangesTwoPositions step.now }
    requires valid { IsValidMove alphabet.count step.now }
    requires fits { alphabet.offset + alphabet.count < 2 ^ 32 }
    ensures { IfOk result (λ states. states.items ≡ fixed_states step.now alphabet.offset alphabet.count) }
{
    match step {
        Move::Pair { a, b, c, d } => pair_states(alloc, *a, *b, *c, *d, alphabet),
        Move::Ring { a, b, c, d } => ring_states(alloc, *a, *b, *c, *d, alphabet),
        Move::Two { a, b, c, d } => two_states(alloc, *a, *b, *c, *d, alphabet),
        _ => unreachable!(),
    }
}

/// Before the first of the two neighbours, between them, and after them.
fn pair_states(
    alloc: Global,
    a: u32,
    b: u32,
    c: u32,
    d: u32,
    alphabet: SectionLetters,
) -> Result<Vec<State>, AllocError>
    requires valid { AllBelow alphabet.count (a ∷ b ∷ c ∷ d ∷ []) }
    requires fits { alphabet.offset + alphabet.count < 2 ^ 32 }
    ensures { IfOk result (λ states. states.items ≡ pair_states a b c d alphabet.offset alphabet.count) }
{
    let left = [edge(alphabet.offset, a, c, 1)];
    let right = [edge(alphabet.offset, b, d, 2)];
    copying_states(
        alloc,
        alphabet,
        &[
            (0, true, left.as_slice()),
            (1, false, right.as_slice()),
            (2, true, &[]),
        ],
    )
}

/// Before the first position, after it, and after the last one.
fn ring_states(
    alloc: Global,
    a: u32,
    b: u32,
    c: u32,
    d: u32,
    alphabet: SectionLetters,
) -> Result<Vec<State>, AllocError>
    requires valid { AllBelow alphabet.count (a ∷ b ∷ c ∷ d ∷ []) }
    requires fits { alphabet.offset + alphabet.count < 2 ^ 32 }
    ensures { IfOk result (λ states. states.items ≡ ring_states a b c d alphabet.offset alphabet.count) }
{
    let first = [edge(alphabet.offset, b, d, 1)];
    let last = [edge(alphabet.offset, a, c, 2)];
    copying_states(
        alloc,
        alphabet,
        &[
            (0, false, first.as_slice()),
            (1, true, last.as_slice()),
            (2, false, &[]),
        ],
    )
}

/// No position has changed, that of `a` has, that of `b` has, and both have.
fn two_states(
    alloc: Global,
    a: u32,
    b: u32,
    c: u32,
    d: u32,
    alphabet: SectionLetters,
) -> Result<Vec<State>, AllocError>
    requires valid { AllBelow alphabet.count (a ∷ b ∷ c ∷ d ∷ []) }
    requires fits { alphabet.offset + alphabet.count < 2 ^ 32 }
    ensures { IfOk result (λ states. states.items ≡ two_states a b c d alphabet.offset alphabet.count) }
{
    let either = [
        edge(alphabet.offset, a, c, 1),
        edge(alphabet.offset, b, d, 2),
    ];
    let second = [edge(alphabet.offset, b, d, 3)];
    let first = [edge(alphabet.offset, a, c, 3)];
    copying_states(
        alloc,
        alphabet,
        &[
            (0, true, either.as_slice()),
            (1, true, second.as_slice()),
            (2, true, first.as_slice()),
            (3, true, &[]),
        ],
    )
}

/// The edge to the state `to` on which the letter `from` becomes `into`.
fn edge(offset: u32, from: u32, into: u32, to: usize) -> (Label, usize)
    requires from_fits { from + offset < 2 ^ 32 }
    requires into_fits { into + offset < 2 ^ 32 }
    ensures { result ≡ exchange_edge offset from into to }
{
    (Label::exchange(from + offset, into + offset), to)
}

/// States, each of which copies the letters of the section and stays, or copies none, and has further edges. One without further edges
/// accepts.
fn copying_states(
    alloc: Global,
    alphabet: SectionLetters,
    parts: &[(usize, bool, &[(Label, usize)])],
) -> Result<Vec<State>, AllocError>
    requires { alphabet.offset + alphabet.count < 2 ^ 32 }
    ensures { IfOk result (λ states. states.items
        ≡ map (λ part. copying_state alphabet.offset alphabet.count part.0 part.1 part.2.now) parts.now) }
{
    let mut states = Vec::with_capacity(alloc, parts.len())?;
    'parts: for part in parts {
        let state = copying_state(alloc, alphabet, part.0, part.1, part.2)?;
        states.push(state)?;
    }
    Ok(states)
}

/// The state of this number that copies the letters and stays, or copies none, and has further edges. Without further edges it accepts.
fn copying_state(
    alloc: Global,
    alphabet: SectionLetters,
    number: usize,
    copies: bool,
    further: &[(Label, usize)],
) -> Result<State, AllocError>
    requires { alphabet.offset + alphabet.count < 2 ^ 32 }
    ensures { IfOk result (λ state. state ≡ copying_state alphabet.offset alphabet.count number copies further.now) }
{
    let count = if copies { alphabet.count } else { 0 };
    let mut edges = copy_edges(alloc, alphabet.offset, count, number)?;
    edges.extend_from_slice(further)?;
    Ok(State::new(further.is_empty(), edges))
}
