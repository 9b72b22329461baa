//! Patterns as states.
//! An atom adds one state or two, with an edge for each of its letters.

ghost use Rattle.std.specs.Prelude.{◌≡◌, ◌<◌, ◌≤◌, ◌+◌, IfOk, length};
ghost use Rattle.std.specs.List.{AllByRecursion};
ghost use Rattle.protocol_model.specs.System.{AllBelow};
ghost use Rattle.protocol_model.specs.Patterns.{atoms_match};
ghost use Rattle.protocol_model.specs.Words.{raised};
ghost use Rattle.section_patterns.specs.private.Languages.{AcceptsFrom, IsAdded};
ghost use Rattle.section_patterns.specs.private.Lists.{BeginsWithAtom, BeginsWithList};

use crate::letters::raised;
use crate::states::{add_loop, add_step};
use protocol_model::Atom;
use protocol_syntax::Many;
use std::alloc::{AllocError, Global};
use word_automata::NfaBuilder;

/// Adds states that accept a list which the atoms match, each letter raised by the offset, and then what the state `next` accepts. The
/// section has `count` letters.
pub(crate) fn add_atoms(
    alloc: Global,
    builder: &mut NfaBuilder,
    atoms: &[Atom],
    offset: u32,
    count: u32,
    next: usize,
) -> Result<usize, AllocError>
    requires next { next < length builder.old.states }
    requires letters { AllByRecursion (λ atom. AllBelow count atom.letters) atoms.now }
    requires fits { offset + count ≤ builder.old.letters }
    ensures { IfOk result (λ state. IsAdded builder.old builder.new state
        (BeginsWithList (atoms_match atoms.now) offset (AcceptsFrom builder.old next))) }
{
    match atoms {
        [] => Ok(next),
        [atom, later @ ..] => {
            let behind = add_atoms(alloc, builder, later, offset, count, next)?;
            let state = add_atom(alloc, builder, atom, offset, count, behind)?;
            Ok(state)
        }
    }
}

/// Adds states that accept letters of the atom, as many as it says, each raised by the offset, and then what the state `next` accepts.
fn add_atom(
    alloc: Global,
    builder: &mut NfaBuilder,
    atom: &Atom,
    offset: u32,
    count: u32,
    next: usize,
) -> Result<usize, AllocError>
    requires next { next < length builder.old.states }
    requires letters { AllBelow count atom.now.letters }
    requires fits { offset + count ≤ builder.old.letters }
    ensures { IfOk result (λ state. IsAdded builder.old builder.new state
        (BeginsWithAtom atom.now.many (raised offset atom.now.letters) (AcceptsFrom builder.old next))) }
{
    let _room = builder.letters();
    let letters = raised(alloc, atom.letters.as_slice(), offset)?;
    match atom.many {
        Many::One => add_step(builder, letters.as_slice(), next),
        Many::Star => add_loop(builder, letters.as_slice(), next),
        Many::Plus => {
            let behind = add_loop(builder, letters.as_slice(), next)?;
            add_step(builder, letters.as_slice(), behind)
        }
    }
}
