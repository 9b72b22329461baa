//! The preimages of a set of states: for each letter the states from which it leads into the set. The sources of the edges into the set
//! are put into a list for each letter, in time linear in the edges.

ghost use Rattle.std.specs.Prelude.{◌≡◌, OnOk, length};
ghost use Rattle.past_abstraction.specs.private.PastSets.{AreInAlphabet, ArePreimages};
ghost use Rattle.past_abstraction.specs.private.WordSets.{HasEmptyLists};

use crate::images::put_edges;
use exploration::Incoming;
use std::alloc::{AllocError, Global};

/// Puts the sources of the edges into states of the set into the lists of their letters.
pub fn put_preimages(
    alloc: Global,
    into: &Incoming,
    set: &[usize],
    lists: &mut Vec<Vec<usize>>,
) -> Result<(), AllocError>
    requires letters { AreInAlphabet into.now (length lists.old.items) }
    requires before { HasEmptyLists (length lists.old.items) lists.old.items }
    ensures count { OnOk result (length lists.new.items ≡ length lists.old.items) }
    ensures preimages { OnOk result (ArePreimages into.now set.now lists.new.items) }
{
    let mut edges = Vec::new(alloc);
    'states: for &state in set {
        edges.clear();
        into.put_into(state, &mut edges)?;
        put_edges(&edges, lists)?;
    }
    Ok(())
}
