//! The automaton of pasts, which reads words from their ends: from each state of an automaton it accepts the reversed words of at most so
//! many letters that lead into the state. Its states are found from the single states on, in a round for each letter: it has at most as
//! many as there are sets of states from which such words lead into one state.

ghost use Rattle.std.specs.Prelude.{IfOk, OnOk, length};
ghost use Rattle.exploration.specs.Incoming.{AreIncoming};
ghost use Rattle.past_abstraction.specs.private.PastSets.{AreSingle, IsPastAutomaton};

use crate::construction::{add_rows, number_of};
use crate::images::empty_lists;
use determinise::StateSet;
use exploration::Incoming;
use indexmap::IndexSet;
use std::alloc::{AllocError, Global};
use word_automata::{Dfa, RowBuilder};

/// The automaton of the pasts of the states of `a`, which have the same numbers in it.
pub fn past_automaton(alloc: Global, a: &Dfa, bound: u64) -> Result<Dfa, AllocError>
    ensures { IfOk result (IsPastAutomaton a.now bound) }
{
    let into = Incoming::new(alloc, a)?;
    let mut sets = IndexSet::new(alloc);
    let mut builder = RowBuilder::new(alloc, a.letters());
    'states: for state in 0..a.states() {
        number_of(&mut sets, &mut builder, StateSet::from_state(alloc, state))?;
    }
    add_rounds(alloc, a, &into, bound, &mut sets, &mut builder)?;
    Ok(builder.finish())
}

/// Adds what is found from the single states in a round for each letter.
fn add_rounds(
    alloc: Global,
    a: &Dfa,
    into: &Incoming,
    bound: u64,
    sets: &mut IndexSet<StateSet>,
    builder: &mut RowBuilder,
) -> Result<(), AllocError>
    requires incoming { AreIncoming a.now into.now }
    requires single { AreSingle (length a.now.states) a.now.letters builder.old sets.old.keys }
    ensures { OnOk result (IsPastAutomaton a.now bound builder.new) }
{
    let mut lists = empty_lists(alloc, a.letters())?;
    let mut first = 0;
    'rounds: for _ in 0..bound {
        let end = sets.len();
        add_rows(alloc, into, a.letters(), &mut lists, sets, builder, first)?;
        first = end;
    }
    Ok(())
}
