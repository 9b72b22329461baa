//! Whether an automaton accepts each word of an image: a walk over triples of a state of the transducer, of the automaton whose words are
//! read, and of the automaton that is to accept, depth first, which ends at the first triple where the first two accept and the third does
//! not (Rabin and Scott, 1959, for products); the image is not built. It takes time linear in the edges of the transducer at the triples
//! that are reached, on average.

ghost use Rattle.std.specs.Prelude.{◌≡◌, ◌↔◌, ◌≤◌, ℕ, false, IsTrue, IfOk, OnOk};
ghost use Rattle.image_preimage.specs.Images.{HasImageOutside, IsImageIncluded};
ghost use Rattle.image_preimage.specs.private.CopyingStates.{AreCopying};
ghost use Rattle.image_preimage.specs.private.Triples.{AddsPlaces, Decides, Walks};

use crate::copying_states::FlaggedTransducer;
use crate::triples::{Triple, Triples};
use exploration::FoundStates;
use minimise::{Canon, same};
use std::alloc::{AllocError, Global};

/// Comparing the automata takes about as long for so many states as going on from one triple.
const STATES_OF_A_TRIPLE: usize = 8;

/// Whether `b` accepts each word to which the transducer relates a word that `a` accepts. The time is linear in the edges of the
/// transducer at the triples of a state of each that are reached, up to the search for a letter among the edges of a state, on average, and
/// the walk ends where it sees a word outside. Where both automata are known to be the same, it does not go on from a triple in which they
/// are in one state, if the transducer only copies from there. `AllocError` where memory runs out.
pub fn is_image_included(
    alloc: Global,
    t: &FlaggedTransducer,
    a: &Canon,
    b: &Canon,
) -> Result<bool, AllocError>
    ensures included { IfOk result (λ included. IsTrue included ↔ IsImageIncluded t.now a.now b.now) }
    ensures outside { IfOk result (λ included. included ≡ false → HasImageOutside t.now a.now b.now) }
{
    let triples = Triples {
        t: t.transducer(),
        a: a.as_dfa(),
        b: b.as_dfa(),
        copying: t.copying(),
    };
    walk(alloc, &triples, a, b)
}

/// Whether no triple is reached from which the transducer leads to a word that the second automaton refuses.
fn walk(alloc: Global, triples: &Triples, a: &Canon, b: &Canon) -> Result<bool, AllocError>
    requires copying { AreCopying triples.now.t.now triples.now.copying.now }
    requires first { a.now ≡ triples.now.a.now }
    requires second { b.now ≡ triples.now.b.now }
    ensures { IfOk result (Decides triples.now.t.now triples.now.a.now triples.now.b.now) }
{
    let mut found = FoundStates::new(alloc, triples.codes())?;
    triples.begin(&mut found)?;
    let mut pending = Vec::new(alloc);
    push_places(&mut pending, 0, found.len())?;
    walk_on(triples, a, b, &mut found, &mut pending)
}

/// Whether no such triple is reached from those that are pending.
fn walk_on(
    triples: &Triples,
    a: &Canon,
    b: &Canon,
    found: &mut FoundStates<Triple>,
    pending: &mut Vec<usize>,
) -> Result<bool, AllocError>
    requires copying { AreCopying triples.now.t.now triples.now.copying.now }
    requires first { a.now ≡ triples.now.a.now }
    requires second { b.now ≡ triples.now.b.now }
    requires walks { Walks triples.now.t.now triples.now.a.now triples.now.b.now triples.now.copying.now found.old.states.items
        pending.old.items }
    ensures { IfOk result (Decides triples.now.t.now triples.now.a.now triples.now.b.now) }
{
    let mut met = 0;
    let mut are_same = false;
    'triples: while let Some(place) = pending.pop() {
        let triple = found.states[place];
        if triples.is_goal(&triple) {
            return Ok(false);
        }
        are_same = are_known_same(triples, &triple, a, b, &mut met, are_same);
        let before = found.len();
        triples.visit(found, are_same, place, triple)?;
        push_places(pending, before, found.len())?;
    }
    Ok(true)
}

/// Whether the automata are known to be the same after one more triple. They are compared once, where an eighth as many triples as there
/// are states were met from which a walk then need not go on: many walks end before, and a comparison takes about as long as these.
fn are_known_same(
    triples: &Triples,
    triple: &Triple,
    a: &Canon,
    b: &Canon,
    met: &mut usize,
    known: bool,
) -> bool
    requires { IsTrue known → a.now ≡ b.now }
    ensures { IsTrue result → a.now ≡ b.now }
{
    if known || !triples.is_copied(triple) {
        return known;
    }
    *met = met.wrapping_add(1);
    if *met == a.size() / STATES_OF_A_TRIPLE + 1 {
        return same(a, b);
    }
    false
}

/// Adds the places from the first up to the end.
fn push_places(pending: &mut Vec<usize>, from: usize, end: usize) -> Result<(), AllocError>
    requires { from ≤ end }
    ensures { OnOk result (AddsPlaces pending.old.items pending.new.items from end) }
{
    'places: for place in from..end {
        pending.push(place)?;
    }
    Ok(())
}
