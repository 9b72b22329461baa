//! States from which a transducer writes what it reads. Passes over the states, from the last to the first, take the flag from the others:
//! edges mostly lead to states with greater numbers, so that one pass finds most. After each pass what is left is tested. A pass takes time
//! linear in the states and edges, and so do all, since there are few.

ghost use Rattle.std.specs.Prelude.{◌≡◌, ◌<◌, false, IsTrue, IfOk, All, length, slice_index_or};
ghost use Rattle.image_preimage.specs.private.CopyingStates.{AreCopying, IsCopyingAt, IsCopyingEdge};

use std::alloc::{AllocError, Global};
use std::marker::Model;
use transducers::{Label, Transducer};

/// So many passes, at most.
const MOST_PASSES: usize = 8;

/// A transducer with flags of states from which it writes what it reads. Contracts see it as the transducer.
#[derive(Drop)]
pub struct FlaggedTransducer {
    transducer: Transducer,
    copying: Vec<bool>,
}

impl Model for FlaggedTransducer {
    ghost use Rattle.transducers.specs.Transducer.{Transducer};
    ghost use Rattle.image_preimage.specs.private.CopyingStates.{AreCopying};

    ghost Value = { Transducer };

    ghost view = { λ f. f.transducer };

    ghost invariant = { λ f. AreCopying f.transducer f.copying.items };
}

impl FlaggedTransducer {
    /// The transducer, flagged. It takes time linear in its states and edges. `AllocError` where memory runs out.
    pub fn new(alloc: Global, transducer: Transducer) -> Result<FlaggedTransducer, AllocError>
        ensures { IfOk result (λ flagged. flagged ≡ transducer) }
    {
        let copying = copying_states(alloc, &transducer)?;
        Ok(FlaggedTransducer {
            transducer,
            copying,
        })
    }

    /// The transducer.
    pub fn transducer(&self) -> &Transducer
        ensures { result.now ≡ self.now }
    {
        &self.transducer
    }

    /// The flags of states, each true only where all edges write what they read and lead to states with the flag.
    pub(crate) fn copying(&self) -> &[bool]
        ensures { AreCopying self.now result.now }
    {
        self.copying.as_slice()
    }
}

/// Flags of states, each true only where all edges write what they read and lead to states with the flag. Where passes were too few, there
/// is none.
fn copying_states(alloc: Global, t: &Transducer) -> Result<Vec<bool>, AllocError>
    ensures { IfOk result (λ flags. AreCopying t.now flags.items) }
{
    let mut flags = vec![in alloc; true; t.states()]?;
    'passes: for _ in 0..MOST_PASSES {
        pass(t, flags.as_mut_slice());
        if are_copying(t, &flags) {
            return Ok(flags);
        }
    }
    Ok(Vec::new(alloc))
}

/// Takes the flag from each state with an edge that writes something else or leads to a state without one, from the last state to the
/// first.
fn pass(t: &Transducer, flags: &mut [bool])
    requires { length flags.old ≡ length t.now.states }
    ensures { length flags.new ≡ length t.now.states }
{
    let count = t.states();
    'states: for back in 0..count {
        let state = count - 1 - back;
        if !copies_at(t, flags, state) {
            flags[state] = false;
        }
    }
}

/// Whether the edges of all flagged states write what they read and lead to flagged states.
fn are_copying(t: &Transducer, flags: &[bool]) -> bool
    requires { length flags.now ≡ length t.now.states }
    ensures { IsTrue result → AreCopying t.now flags.now }
{
    'states: for state in 0..t.states() {
        if !copies_at(t, flags, state) {
            return false;
        }
    }
    true
}

/// Whether the state has no flag, or its edges write what they read and lead to flagged states.
fn copies_at(t: &Transducer, flags: &[bool], state: usize) -> bool
    requires { state < length flags.now }
    ensures { IsTrue result → IsCopyingAt t.now flags.now state }
{
    if !flags[state] {
        return true;
    }
    are_copying_edges(flags, t.edges(state))
}

/// Whether the edges write what they read and lead to flagged states.
fn are_copying_edges(flags: &[bool], edges: &[(Label, usize)]) -> bool
    ensures { IsTrue result → All (IsCopyingEdge flags.now) edges.now }
{
    'edges: for &(label, to) in edges {
        if label.read != label.write || !has_flag(flags, to) {
            return false;
        }
    }
    true
}

/// Whether the state is there and has the flag.
pub(crate) fn has_flag(flags: &[bool], state: usize) -> bool
    ensures { result ≡ slice_index_or flags.now state false }
{
    match flags.get(state) {
        Some(flag) => *flag,
        None => false,
    }
}
