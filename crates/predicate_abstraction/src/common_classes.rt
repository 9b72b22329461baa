//! The classes that two lists of classes have in common: the two classes of a state make one number, and states of one number are in one
//! class. It takes time linear in the states, on average.

ghost use Rattle.std.specs.Prelude.{◌≡◌, IfOk, length};
ghost use Rattle.abstraction.specs.Partitions.{AreNumbers};
ghost use Rattle.predicate_abstraction.specs.private.Splitting.{AreCommon};

use crate::place::place;
use abstraction::first_states;
use std::alloc::{AllocError, Global};

/// The classes of states that are in one class of `a` and in one of `b`. Each class has the number of its first state.
pub fn common_classes(alloc: Global, a: &[usize], b: &[usize]) -> Result<Vec<usize>, AllocError>
    requires count { length b.now ≡ length a.now }
    requires a { AreNumbers (length a.now) a.now }
    requires b { AreNumbers (length a.now) b.now }
    ensures { IfOk result (λ both. AreCommon a.now b.now both.items) }
{
    let count = a.len();
    if count.checked_mul(count).is_none() {
        return Err(AllocError);
    }
    let mut pairs = Vec::with_capacity(alloc, count)?;
    'states: for state in 0..count {
        pairs.push(place(count, count, a[state], b[state]))?;
    }
    first_states(alloc, &pairs)
}
