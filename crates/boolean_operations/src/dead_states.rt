//! States of a finite automaton from which no word is accepted. Passes over the states, from the last to the first, find those from which
//! some word is: edges mostly lead to states with greater numbers, so that one pass finds most. After each pass what is left is tested. A
//! pass takes time linear in the states and edges, and so do all, since there are few.

ghost use Rattle.std.specs.Prelude.{◌≡◌, ◌<◌, ℕ, true, false, Option, Contains, IsTrue, IfOk, length, map, slice_index_or};
ghost use Rattle.boolean_operations.specs.private.DeadStates.{IsRejectingAt, AreRejecting};

use crate::finite_automaton::FiniteAutomaton;
use std::alloc::{AllocError, Global};

/// So many passes, at most.
const MOST_PASSES: usize = 8;

/// Flags of states, each true only where no word is accepted from the state. Where passes were too few, there is no flag.
pub(crate) fn dead_flags<A: FiniteAutomaton>(
    alloc: Global,
    automaton: &A,
) -> Result<Vec<bool>, AllocError>
    ensures { IfOk result (λ flags. AreRejecting (A.automaton automaton.now) flags.items) }
{
    let mut flags = vec![in alloc; true; automaton.states()]?;
    'passes: for _ in 0..MOST_PASSES {
        pass(automaton, flags.as_mut_slice());
        if are_rejecting(automaton, &flags) {
            return Ok(flags);
        }
    }
    Ok(Vec::new(alloc))
}

/// Whether the state is there and has the flag.
pub(crate) fn has_flag(flags: &[bool], state: usize) -> bool
    ensures { result ≡ slice_index_or flags.now state false }
{
    match flags.get(state) {
        Some(flag) => *flag,
        None => false,
    }
}

/// Takes the flag from each state that accepts or leads to a state without one, from the last state to the first.
fn pass<A: FiniteAutomaton>(automaton: &A, flags: &mut [bool])
    requires { length flags.old ≡ length (A.automaton automaton.now).states }
    ensures { length flags.new ≡ length (A.automaton automaton.now).states }
{
    let count = automaton.states();
    'states: for back in 0..count {
        let state = count - 1 - back;
        if !rejects_at(automaton, flags, state) {
            flags[state] = false;
        }
    }
}

/// Whether the flagged states do not accept, and lead to flagged states alone.
fn are_rejecting<A: FiniteAutomaton>(automaton: &A, flags: &[bool]) -> bool
    requires { length flags.now ≡ length (A.automaton automaton.now).states }
    ensures { IsTrue result → AreRejecting (A.automaton automaton.now) flags.now }
{
    'states: for state in 0..automaton.states() {
        if !rejects_at(automaton, flags, state) {
            return false;
        }
    }
    true
}

/// Whether the state has no flag, or does not accept and leads to flagged states alone.
fn rejects_at<A: FiniteAutomaton>(automaton: &A, flags: &[bool], state: usize) -> bool
    requires count { length flags.now ≡ length (A.automaton automaton.now).states }
    requires state { state < length (A.automaton automaton.now).states }
    ensures { IsTrue result → IsRejectingAt (A.automaton automaton.now) flags.now state }
{
    if !flags[state] {
        return true;
    }
    if automaton.accepting(state) {
        return false;
    }
    lead_to_flagged::<A>(flags, automaton.edges_from(state))
}

/// Whether the edges lead to states with the flag.
fn lead_to_flagged<A: FiniteAutomaton>(flags: &[bool], edges: &[A::Edge]) -> bool
    ensures { IsTrue result → (label : Option ℕ) (q : ℕ) → Contains (map A.move_of edges.now) (label, q)
        → slice_index_or flags.now q false ≡ true }
{
    'edges: for &edge in edges {
        let (_, to) = A::read(edge);
        if !has_flag(flags, to) {
            return false;
        }
    }
    true
}
