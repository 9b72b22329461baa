//! The subset construction (M. O. Rabin and D. Scott, 1959) over lists, which can be stopped and gone on with. It costs what the
//! successors of its sets do. What was found stands behind one pointer, so that it is passed on and let go at once.

ghost use Rattle.std.specs.Prelude.{◌≡◌, IfOk};
ghost use Rattle.determinise.specs.private.Determinised.{IsDeterminised};

use crate::state_set::StateSet;
use crate::subsets::Subsets;
use exploration::Exploration;
use std::alloc::{AllocError, Global};
use word_automata::Dfa;

/// The sets that are asked for, and those that were found, behind one pointer.
#[derive(Drop)]
pub struct Lists<'a> {
    pub subsets: &'a Subsets<'a>,
    found: Box<Exploration<'a, Subsets<'a>>>,
    ghost same: { found.value ≡ subsets.now },
}

impl<'a> Lists<'a> {
    /// The construction that has found the first set, if there is one.
    pub fn begin(alloc: Global, subsets: &'a Subsets<'a>) -> Result<Lists<'a>, AllocError>
        ensures { IfOk result (λ begun. begun.subsets.now ≡ subsets.now) }
    {
        let found = Box::new(alloc, Exploration::begin(alloc, subsets)?)?;
        Ok(Lists { subsets, found })
    }

    /// The construction further on: at its end, or where more than so many sets were found.
    pub fn advance(self, alloc: Global, most: usize) -> Result<Lists<'a>, AllocError>
        ensures { IfOk result (λ advanced. advanced.subsets.now ≡ self.entry.subsets.now) }
    {
        let subsets = self.subsets;
        let found = Box::new(alloc, Box::into_inner(self.found).advance(most)?)?;
        Ok(Lists { subsets, found })
    }

    /// The sets that were found.
    pub fn states(&self) -> &[StateSet] {
        self.found.states()
    }

    /// Whether all sets that were found were gone through.
    pub fn is_done(&self) -> bool {
        self.found.is_done()
    }

    /// The automaton of the sets, after what is left.
    pub fn finish(self) -> Result<Dfa, AllocError>
        ensures { IfOk result (IsDeterminised self.entry.subsets.now.automaton.now) }
    {
        Box::into_inner(self.found).finish()
    }
}
