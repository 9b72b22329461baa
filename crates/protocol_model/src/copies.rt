//! Copies of configurations and of systems.
//! Each function copies one level, so a copy costs what the value holds; the copy is equal to it.

ghost use Rattle.std.specs.Prelude.{◌≡◌, IfOk, None};

use crate::fault::ModelFault;
use crate::renaming::{MoveRenaming, Renaming, rename_move};
use crate::sections::copy_text;
use crate::system::{Atom, Configuration, Move, Pattern, Row, Rule, Section, System};
use sequence::{Sequence, Text};
use std::alloc::{AllocError, Global};

/// What can be copied.
trait Copied: Drop {
    /// A value with the same data.
    fn copied(&self, alloc: Global) -> Result<Self, AllocError>
        ensures { IfOk result (λ copy. copy ≡ self.now) };
}

fn copy_each<T: Copied>(alloc: Global, items: &[T]) -> Result<Sequence<T>, AllocError>
    ensures { IfOk result (λ copies. copies ≡ items.now) }
{
    let mut copies = Vec::new(alloc);
    'items: for item in items {
        let copy = item.copied(alloc)?;
        copies.push(copy)?;
    }
    Ok(Sequence::from_vec(copies))
}

impl Copied for Text {
    fn copied(&self, alloc: Global) -> Result<Text, AllocError> {
        copy_text(alloc, self)
    }
}

impl Copied for Sequence<u32> {
    fn copied(&self, alloc: Global) -> Result<Sequence<u32>, AllocError> {
        Ok(Sequence::from_vec(self.as_slice().to_vec(alloc)?))
    }
}

impl Copied for Atom {
    fn copied(&self, alloc: Global) -> Result<Atom, AllocError> {
        let letters = self.letters.copied(alloc)?;
        Ok(Atom {
            letters,
            many: self.many,
        })
    }
}

impl Copied for (u32, Pattern) {
    fn copied(&self, alloc: Global) -> Result<(u32, Pattern), AllocError> {
        let atoms = copy_each(alloc, self.1.atoms.as_slice())?;
        Ok((self.0, Pattern { atoms }))
    }
}

impl Copied for Row {
    fn copied(&self, alloc: Global) -> Result<Row, AllocError> {
        let parts = copy_each(alloc, self.parts.as_slice())?;
        Ok(Row { parts })
    }
}

/// The renaming by which each number stays.
struct Identity;

impl Renaming for Identity {
    type Letter = u32;

    ghost number = { λ _ letter. letter };

    ghost fault = { λ _ _. None };

    fn letter(&self, _alloc: Global, letter: &u32) -> Result<u32, ModelFault> {
        Ok(*letter)
    }
}

impl MoveRenaming for Identity {
    type Set = Sequence<u32>;

    ghost letters = { λ _ set. set };

    ghost numbers = { λ _ set. set };

    ghost left_fault = { λ _ _ _. None };

    fn set(&self, alloc: Global, set: &Sequence<u32>) -> Result<Sequence<u32>, ModelFault> {
        Ok(set.copied(alloc)?)
    }

    fn check_entry(
        &self,
        _alloc: Global,
        _earlier: &[(u32, u32)],
        _entry: &(u32, u32),
    ) -> Result<(), ModelFault> {
        Ok(())
    }
}

fn copy_move(alloc: Global, source: &Move) -> Result<Move, AllocError>
    ensures { IfOk result (λ copy. copy ≡ source.now) }
{
    match rename_move(alloc, &Identity, source) {
        Ok(copy) => Ok(copy),
        Err(_) => Err(AllocError),
    }
}

impl Copied for (u32, Move) {
    fn copied(&self, alloc: Global) -> Result<(u32, Move), AllocError> {
        let copy = copy_move(alloc, &self.1)?;
        Ok((self.0, copy))
    }
}

impl Copied for Rule {
    fn copied(&self, alloc: Global) -> Result<Rule, AllocError> {
        let name = copy_text(alloc, &self.name)?;
        let moves = copy_each(alloc, self.moves.as_slice())?;
        Ok(Rule { name, moves })
    }
}

impl Copied for Section {
    fn copied(&self, alloc: Global) -> Result<Section, AllocError> {
        let name = copy_text(alloc, &self.name)?;
        let letters = copy_each(alloc, self.letters.as_slice())?;
        Ok(Section {
            name,
            kind: self.kind,
            letters,
        })
    }
}

impl Configuration {
    /// A configuration with the same lists.
    pub fn copy(&self, alloc: Global) -> Result<Configuration, AllocError>
        ensures { IfOk result (λ copy. copy ≡ self.now) }
    {
        let lists = copy_each(alloc, self.lists.as_slice())?;
        Ok(Configuration { lists })
    }
}

impl System {
    /// A system with the same data.
    pub fn copy(&self, alloc: Global) -> Result<System, AllocError>
        ensures { IfOk result (λ copy. copy ≡ self.now) }
    {
        let name = copy_text(alloc, &self.name)?;
        let sections = copy_each(alloc, self.sections.as_slice())?;
        let init = copy_each(alloc, self.init.as_slice())?;
        let rules = copy_each(alloc, self.rules.as_slice())?;
        let bad = copy_each(alloc, self.bad.as_slice())?;
        Ok(System {
            name,
            sections,
            init,
            rules,
            bad,
        })
    }
}
