//! Automata of many states, and over many letters: a chain of a million states is minimised, and inclusion is decided over four thousand
//! million letters, which bodies of quadratic time, or with a row for each letter, do not finish.

use crate::automata::automaton;
use boolean_operations::included;
use minimise::canonical;
use std::alloc::Global;
use std::test::Fail;
use word_automata::{Dfa, DfaBuilder};

/// So many letters that nothing may be done for each of them.
const LETTERS: u32 = 4_000_000_000;

/// A row of a million states over one letter, of which the last accepts.
const STATES: usize = 1_000_000;

/// Adds the row.
fn add_row(builder: &mut DfaBuilder) -> Result<(), Fail> {
    let mut last = builder.state(false)?;
    'states: for _ in 1..STATES {
        let next = builder.state(false)?;
        builder.edge(last, 0, next)?;
        last = next;
    }
    Ok(builder.accept(last)?)
}

/// The row.
fn row(alloc: Global) -> Result<Box<Dfa>, Fail> {
    let mut builder = DfaBuilder::new(alloc, 1);
    add_row(&mut builder)?;
    Ok(Box::new(alloc, builder.finish())?)
}

/// The word of this letter alone, over all these letters.
fn one_letter(alloc: Global, letter: u32) -> Result<Box<Dfa>, Fail> {
    automaton(alloc, LETTERS, &[false, true], &[(0, letter, 1)])
}

/// The least word of the one outside the other. Both are over the same letters.
fn outside(alloc: Global, a: &Dfa, b: &Dfa) -> Result<Option<Vec<u32>>, Fail> {
    if a.letters() != b.letters() {
        return Err("other letters".into());
    }
    Ok(included(alloc, a, b)?)
}

#[test]
fn row_of_a_million_states_stays(rt: HostRuntime) -> Result<(), Fail> {
    let row = row(rt.alloc())?;
    let least = Box::new(rt.alloc(), canonical(rt.alloc(), &row)?)?;
    assert!(rt; least.size() == STATES);
    Ok(())
}

#[test]
fn inclusion_over_many_letters(rt: HostRuntime) -> Result<(), Fail> {
    let zero = one_letter(rt.alloc(), 0)?;
    let one = one_letter(rt.alloc(), 1)?;
    assert!(rt; outside(rt.alloc(), &zero, &zero)?.is_none());
    let word = outside(rt.alloc(), &zero, &one)?;
    assert!(rt; word.is_some_and(|w| w.as_slice() == [0].as_slice()));
    Ok(())
}
