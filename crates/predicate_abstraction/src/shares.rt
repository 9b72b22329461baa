//! Classes of states by a list of predicate automata. The list is cut into shares, one for each worker; a thread splits the states by
//! the automata of its share alone, and the classes of all shares are put together.

ghost use Rattle.std.specs.Prelude.{IfOk};
ghost use Rattle.predicate_abstraction.specs.private.Splitting.{AreClassesBy, AreClassesOfAllButLast};

use crate::common_classes::common_classes;
use crate::predicate::Predicate;
use crate::shared_words::edges_into;
use crate::splitting::split_by_predicate;
use abstraction::{are_single, first_states};
use minimise::Canon;
use std::alloc::{AllocError, Global};
use std::thread::{Threads, join};

/// So many pairs of a state and a predicate's state are worth a thread.
const PAIRS_OF_A_SHARE: usize = 65_536;

/// The classes of states that share words with the same states of the predicate automata, made in at most so many threads.
pub fn classes_in_threads<R: Threads>(
    alloc: Global,
    runtime: &R,
    workers: u32,
    a: &Canon,
    predicates: &[Predicate],
) -> Result<Vec<usize>, AllocError>
    ensures { IfOk result (λ classes. AreClassesBy predicates.now a.now classes.items) }
{
    let worth = states(predicates).saturating_mul(a.size()) / PAIRS_OF_A_SHARE;
    let shares = worth.min(workers as usize).min(predicates.len());
    classes_in_shares(alloc, runtime, shares, a, predicates)
}

/// The number of states of all automata, or the largest number where that is less.
fn states(automata: &[Predicate]) -> usize {
    let mut total = 0usize;
    'automata: for automaton in automata {
        total = total.saturating_add(automaton.size());
    }
    total
}

/// The classes, where the first share is split by a thread of its own, and the others are cut further.
fn classes_in_shares<R: Threads>(
    alloc: Global,
    runtime: &R,
    shares: usize,
    a: &Canon,
    predicates: &[Predicate],
) -> Result<Vec<usize>, AllocError>
    ensures { IfOk result (λ classes. AreClassesBy predicates.now a.now classes.items) }
{
    if shares < 2 {
        return classes_in_turn(alloc, a, predicates);
    }
    let (share, others) = predicates.split_at(predicates.len() / shares);
    let other_shares = shares - 1;
    let (first, rest) = join(
        runtime,
        || -> Result<Vec<usize>, AllocError>
            ensures { IfOk result (λ classes. AreClassesBy share.entry.now a.entry.now classes.items) }
        { classes_in_turn(alloc, a, share) },
        || -> Result<Vec<usize>, AllocError>
            ensures { IfOk result (λ classes. AreClassesBy others.entry.now a.entry.now classes.items) }
        { classes_in_shares(alloc, runtime, other_shares, a, others) },
    );
    common_classes(alloc, &first?, &rest?)
}

/// The classes, split automaton by automaton until each state is alone in its own.
fn classes_in_turn(
    alloc: Global,
    a: &Canon,
    predicates: &[Predicate],
) -> Result<Vec<usize>, AllocError>
    ensures { IfOk result (λ classes. AreClassesBy predicates.now a.now classes.items) }
{
    let automaton = a.as_dfa();
    let into = edges_into(alloc, automaton)?;
    let mut classes = vec![in alloc; 0; a.size()]?;
    'predicates: for predicate in predicates {
        if are_single(&classes) {
            return Ok(classes);
        }
        classes = split_by_predicate(alloc, &classes, automaton, &into, predicate)?;
    }
    Ok(classes)
}

/// The classes of states that share words with the same states of the predicate automata, where those by all but the last one are known.
pub fn split_by_last(
    alloc: Global,
    predicates: &[Predicate],
    a: &Canon,
    before: &[usize],
) -> Result<Vec<usize>, AllocError>
    requires { AreClassesOfAllButLast predicates.now a.now before.now }
    ensures { IfOk result (λ classes. AreClassesBy predicates.now a.now classes.items) }
{
    let classes = first_states(alloc, before)?;
    let Some(last) = predicates.len().checked_sub(1) else {
        return Ok(classes);
    };
    let automaton = a.as_dfa();
    let into = edges_into(alloc, automaton)?;
    split_by_predicate(alloc, &classes, automaton, &into, &predicates[last])
}
