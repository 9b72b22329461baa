//! Rows of patterns by number.
//! Each name is looked up once; whether an earlier part names the section is a search through them, so a row costs the square of its parts.

ghost use Rattle.std.specs.Prelude.{◌≡◌};
ghost use Rattle.protocol_model.specs.Numbering.{atom_of, part_of, row_of};
ghost use Rattle.protocol_model.specs.Faults.{base_fault, part_fault, row_fault};
ghost use Rattle.std.specs.List.{list_any};
ghost use Rattle.std.specs.Str.{bytes_eq};
ghost use Rattle.protocol_model.specs.Outcome.{IsOutcome};

use crate::fault::ModelFault;
use crate::names::Names;
use crate::renaming::MoveRenaming;
use crate::sections::{Sections, duplicate_name, unknown_name};
use crate::system::{Atom, Pattern, Row};
use crate::traversal::{Resolver, resolve_each};
use protocol_syntax::{AtomText, Name, PartText, RowText};
use std::alloc::Global;

/// Atoms of a pattern, where these are the letters of its section.
#[derive(Clone, Copy)]
struct Atoms<'n, 'a>(&'n Names<'a>);

impl<'n, 'a> Resolver for Atoms<'n, 'a> {
    type Item = AtomText;

    type Value = Atom;

    ghost value = { λ x. atom_of x.0.now };

    ghost fault = { λ x _ atom. base_fault x.0.now atom.base };

    fn resolve(
        &self,
        alloc: Global,
        _earlier: &[AtomText],
        atom: &AtomText,
    ) -> Result<Atom, ModelFault> {
        let letters = self.0.set(alloc, &atom.base)?;
        Ok(Atom {
            letters,
            many: atom.many,
        })
    }
}

/// Whether one of the parts names this section.
fn is_named(parts: &[PartText], name: &Name) -> bool
    ensures { result ≡ list_any (λ part. bytes_eq name.now.text part.section.text) parts.now }
{
    parts
        .iter()
        .any(|part| name.text.as_str() == part.section.text.as_str())
}

/// Parts of a row.
#[derive(Clone, Copy)]
struct Parts<'s, 'a>(&'s Sections<'a>);

impl<'s, 'a> Resolver for Parts<'s, 'a> {
    type Item = PartText;

    type Value = (u32, Pattern);

    ghost value = { λ x. part_of x.0.now };

    ghost fault = { λ x. part_fault x.0.now };

    fn resolve(
        &self,
        alloc: Global,
        earlier: &[PartText],
        part: &PartText,
    ) -> Result<(u32, Pattern), ModelFault> {
        let Some(found) = self.0.find(&part.section) else {
            return Err(unknown_name(alloc, &part.section));
        };
        if is_named(earlier, &part.section) {
            return Err(duplicate_name(alloc, &part.section));
        }
        let atoms = resolve_each(alloc, &Atoms(found.letters), part.atoms.as_slice())?;
        Ok((found.number, Pattern { atoms }))
    }
}

/// A row by number, or its first fault: `Unknown` or `Duplicate`, with the name at which it stands.
pub fn resolve_row(alloc: Global, sections: &Sections, row: &RowText) -> Result<Row, ModelFault>
    ensures { IsOutcome (row_fault sections.now row.now) (row_of sections.now row.now) result }
{
    let parts = resolve_each(alloc, &Parts(sections), row.parts.as_slice())?;
    Ok(Row { parts })
}

/// The rows of initial or of bad configurations.
#[derive(Clone, Copy)]
pub struct Rows<'s, 'a>(pub &'s Sections<'a>);

impl<'s, 'a> Resolver for Rows<'s, 'a> {
    type Item = RowText;

    type Value = Row;

    ghost value = { λ x. row_of x.0.now };

    ghost fault = { λ x _. row_fault x.0.now };

    fn resolve(
        &self,
        alloc: Global,
        _earlier: &[RowText],
        row: &RowText,
    ) -> Result<Row, ModelFault> {
        resolve_row(alloc, self.0, row)
    }
}
