//! The states of an automaton from which some word is accepted (S. Eilenberg, 1974: the coaccessible part), numbered anew, with the
//! edges of each state in order, and where these are few without edges without a letter. It takes time linear in the states and edges,
//! up to sorting.

ghost use Rattle.std.specs.Prelude.{◌≡◌, ◌↔◌, ℕ, List, IfOk, IfSome, length};
ghost use Rattle.word_automata.specs.Nondeterministic.{Accepts};
ghost use Rattle.reduction.specs.private.Emptiness.{AreRejecting};
ghost use Rattle.reduction.specs.private.Renumbering.{AreUnflagged};

use crate::emptiness::{dead_flags, is_flagged};
use crate::order::has_ordered_edges;
use crate::renumbering::part_of;
use crate::silent_edges::without_silent;
use std::alloc::{AllocError, Global};
use word_automata::Nfa;

/// The automaton without states from which no word is accepted, or `None` where a search finds none of these and the edges are in
/// order. The other states are numbered anew and stay in order, and so do edges, by letter and target. That each such state is found is
/// no clause. Edges without a letter go first, where they reach few states from each: a state then has the edges of the states that they
/// reach. `AllocError` where memory runs out.
pub fn live_part(alloc: Global, automaton: &Nfa) -> Result<Option<Nfa>, AllocError>
    ensures language { IfOk result (λ found. IfSome found (λ live. (w : List ℕ) → Accepts live w ↔ Accepts automaton.now w)) }
    ensures letters { IfOk result (λ found. IfSome found (λ live. live.letters ≡ automaton.now.letters)) }
{
    match without_silent(alloc, automaton)? {
        Some(plain) => match ordered_part(alloc, &plain)? {
            Some(live) => Ok(Some(live)),
            None => Ok(Some(plain)),
        },
        None => ordered_part(alloc, automaton),
    }
}

/// The automaton without states from which no word is accepted, with edges in order, or `None` where a search finds none of these and
/// they are in order.
fn ordered_part(alloc: Global, automaton: &Nfa) -> Result<Option<Nfa>, AllocError>
    ensures language { IfOk result (λ found. IfSome found (λ live. (w : List ℕ) → Accepts live w ↔ Accepts automaton.now w)) }
    ensures letters { IfOk result (λ found. IfSome found (λ live. live.letters ≡ automaton.now.letters)) }
{
    let dead = dead_flags(alloc, automaton)?;
    if is_flagged(&dead) || !has_ordered_edges(automaton) {
        let live = without_dead(alloc, automaton, &dead)?;
        return Ok(Some(live));
    }
    Ok(None)
}

/// The automaton of the states that are not flagged, with edges in order, which accepts the same words.
fn without_dead(alloc: Global, automaton: &Nfa, dead: &[bool]) -> Result<Nfa, AllocError>
    requires dead { AreRejecting automaton.now dead.now }
    requires count { length dead.now ≡ length automaton.now.states }
    ensures language { IfOk result (λ live. (w : List ℕ) → Accepts live w ↔ Accepts automaton.now w) }
    ensures letters { IfOk result (λ live. live.letters ≡ automaton.now.letters) }
{
    let states = live_states(alloc, dead)?;
    Ok(part_of(alloc, automaton, &states)?)
}

/// The states that are not flagged, in order.
fn live_states(alloc: Global, dead: &[bool]) -> Result<Vec<usize>, AllocError>
    ensures { IfOk result (λ states. AreUnflagged dead.now states.items) }
{
    let mut states = Vec::new(alloc);
    'states: for state in 0..dead.len() {
        if dead[state] {
            continue;
        }
        states.push(state)?;
    }
    Ok(states)
}
