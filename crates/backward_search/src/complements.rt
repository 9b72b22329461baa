//! Complements of canonical automata, made canonical: where an edge is missing it leads to one more state, and the states that accepted do
//! not (Rabin and Scott, 1959). They take time and memory for each letter at each state, and a minimisation.

ghost use Rattle.std.specs.Prelude.{IfOk};
ghost use Rattle.backward_search.specs.BackwardVerdicts.{IsComplementOf};

use boolean_operations::complement;
use minimise::{Canon, canonical};
use std::alloc::{AllocError, Global};

/// The canonical automaton of all words over the letters of `m` that `m` refuses.
pub(crate) fn canonical_complement(alloc: Global, m: &Canon) -> Result<Canon, AllocError>
    ensures { IfOk result (IsComplementOf m.now) }
{
    let refused = complement(alloc, m.as_dfa())?;
    Ok(canonical(alloc, &refused)?)
}
