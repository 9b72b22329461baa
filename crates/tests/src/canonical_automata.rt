//! Canonical automata of equal languages are equal, and have as many states as the language has residuals.
//! Each takes a few states.

use crate::automata::automaton;
use minimise::{Canon, canonical, same};
use std::alloc::Global;
use std::test::Fail;

/// The canonical automaton of what the one with these states and edges over two letters accepts.
fn canon(
    alloc: Global,
    accepting: &[bool],
    edges: &[(usize, u32, usize)],
) -> Result<Box<Canon>, Fail> {
    let written = automaton(alloc, 2, accepting, edges)?;
    Ok(Box::new(alloc, canonical(alloc, &written)?)?)
}

/// The words with an odd number of the letter 1, by two states.
fn odd(alloc: Global) -> Result<Box<Canon>, Fail> {
    let edges = [(0, 0, 0), (0, 1, 1), (1, 0, 1), (1, 1, 0)];
    canon(alloc, &[false, true], &edges)
}

/// The same by five states, of which two are not reached, and the others are in another order.
fn odd_by_five(alloc: Global) -> Result<Box<Canon>, Fail> {
    let edges = [
        (0, 0, 3),
        (0, 1, 2),
        (2, 0, 2),
        (2, 1, 3),
        (3, 0, 0),
        (3, 1, 2),
        (1, 0, 2),
    ];
    canon(alloc, &[false, true, true, false, false], &edges)
}

#[test]
fn equal_languages_give_equal_data(rt: HostRuntime) -> Result<(), Fail> {
    let a = odd(rt.alloc())?;
    let b = odd_by_five(rt.alloc())?;
    assert!(rt; same(&a, &b) && b.size() == 2);
    assert!(rt; b.accepts(&[1, 0, 1, 1]) && !b.accepts(&[1, 0, 1]));
    Ok(())
}
