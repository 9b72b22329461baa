//! States that are added in front of others: each accepts some letters, and then what another state accepts.
//! Old states keep their edges, and so their words.

ghost use Rattle.std.specs.Prelude.{◌≡◌, ◌<◌, All, IfOk, OnOk, length};
ghost use Rattle.section_patterns.specs.private.Languages.{AcceptsFrom, BeginsWithLetter, BeginsWithLetters, IsAdded, AddsLetterEdges};

use std::alloc::AllocError;
use word_automata::NfaBuilder;

/// Adds a state that accepts one of the letters and then what the state `next` accepts.
pub(crate) fn add_step(
    builder: &mut NfaBuilder,
    letters: &[u32],
    next: usize,
) -> Result<usize, AllocError>
    requires next { next < length builder.old.states }
    requires letters { All (λ a. a < builder.old.letters) letters.now }
    ensures { IfOk result (λ state. IsAdded builder.old builder.new state
        (BeginsWithLetter letters.now (AcceptsFrom builder.old next))) }
{
    let state = builder.states();
    builder.state(false)?;
    add_edges(builder, state, letters, next)?;
    Ok(state)
}

/// Adds a state that accepts none or more of the letters and then what the state `next` accepts.
pub(crate) fn add_loop(
    builder: &mut NfaBuilder,
    letters: &[u32],
    next: usize,
) -> Result<usize, AllocError>
    requires next { next < length builder.old.states }
    requires letters { All (λ a. a < builder.old.letters) letters.now }
    ensures { IfOk result (λ state. IsAdded builder.old builder.new state
        (BeginsWithLetters letters.now (AcceptsFrom builder.old next))) }
{
    let state = builder.states();
    builder.state(false)?;
    builder.edge(state, None, next)?;
    add_edges(builder, state, letters, state)?;
    Ok(state)
}

/// Adds an edge on each of the letters.
fn add_edges(
    builder: &mut NfaBuilder,
    from: usize,
    letters: &[u32],
    to: usize,
) -> Result<(), AllocError>
    requires from { from < length builder.old.states }
    requires to { to < length builder.old.states }
    requires letters { All (λ a. a < builder.old.letters) letters.now }
    ensures { OnOk result (AddsLetterEdges builder.old builder.new from letters.now to) }
{
    'letters: for letter in letters {
        builder.edge(from, Some(*letter), to)?;
    }
    Ok(())
}
