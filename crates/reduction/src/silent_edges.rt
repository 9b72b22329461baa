//! Automata without edges without a letter: each state has the edges with a letter of all states that edges without one reach from it,
//! and accepts where one of these does (J. E. Hopcroft and J. D. Ullman, 1979). It takes time linear in the edges of the result, up to
//! sorting, and in the square of the states that are reached from one. These are few, or there is no such automaton.

ghost use Rattle.std.specs.Prelude.{◌≡◌, ◌↔◌, ◌+◌, ◌<◌, [], ◌∷◌, ℕ, List, None, Contains, IsTrue, IfOk, IfSome, OnOk, length};
ghost use Rattle.word_automata.specs.Nondeterministic.{Accepts, IsInRange};
ghost use Rattle.word_automata.specs.StateSets.{AreStates, AddsState, AddsTargets, IsClosure};
ghost use Rattle.reduction.specs.private.SilentMoves.{AddsLettered, AreMovesOf, AcceptsOne, IsFlagged, IsFreed};

use crate::copying::{add_edges, add_starts};
use crate::order::order_edges;
use std::alloc::{AllocError, Global};
use word_automata::{Nfa, NfaBuilder};

/// Where edges without a letter reach more states from one state, they stay.
const MOST_REACHED: usize = 16;

/// So they do where they reach more states than so many from each one on average,
const MEAN_REACHED: usize = 4;

/// unless they reach no more than so many in all.
const FEW_REACHED: usize = 1024;

/// The automaton without edges without a letter, or `None` where there are none, or where they reach too many states from one.
pub fn without_silent(alloc: Global, automaton: &Nfa) -> Result<Option<Nfa>, AllocError>
    ensures language { IfOk result (λ found. IfSome found (λ freed. (w : List ℕ) → Accepts freed w ↔ Accepts automaton.now w)) }
    ensures letters { IfOk result (λ found. IfSome found (λ freed. freed.letters ≡ automaton.now.letters)) }
{
    if !has_few_silent(automaton) {
        return Ok(None);
    }
    let Some(mut builder) = flagged_states(alloc, automaton)? else {
        return Ok(None);
    };
    add_starts(&mut builder, automaton.starts())?;
    'states: for state in 0..automaton.states() {
        let Some(reached) = reached_from(alloc, automaton, state)? else {
            return Ok(None);
        };
        add_moves(alloc, &mut builder, automaton, state, &reached)?;
    }
    Ok(Some(builder.finish()))
}

/// Whether some edges have no letter, and from no state more of them lead than states may be reached.
fn has_few_silent(automaton: &Nfa) -> bool {
    let mut is_some = false;
    'states: for state in 0..automaton.states() {
        let count = count_silent(automaton.edges_from(state));
        if count > MOST_REACHED {
            return false;
        }
        is_some = is_some || count > 0;
    }
    is_some
}

/// How many of the edges have no letter.
fn count_silent(edges: &[(Option<u32>, usize)]) -> usize {
    let mut count: usize = 0;
    'edges: for (letter, _) in edges {
        if letter.is_none() {
            count = count.saturating_add(1);
        }
    }
    count
}

/// The states without their edges, each of which accepts where a state does that edges without a letter reach from it.
fn flagged_states(alloc: Global, automaton: &Nfa) -> Result<Option<NfaBuilder>, AllocError>
    ensures { IfOk result (λ found. IfSome found (λ built. IsFlagged automaton.now built (length automaton.now.states))) }
{
    let mut builder = NfaBuilder::new(alloc, automaton.letters());
    let mut left = most_in_all(automaton.states());
    'states: for state in 0..automaton.states() {
        let Some(reached) = reached_from(alloc, automaton, state)? else {
            return Ok(None);
        };
        if reached.len() > left {
            return Ok(None);
        }
        left -= reached.len();
        builder.state(accepts_one(automaton, &reached))?;
    }
    Ok(Some(builder))
}

/// So many states may be reached from so many states in all.
fn most_in_all(states: usize) -> usize {
    states.saturating_mul(MEAN_REACHED).max(FEW_REACHED)
}

/// The states that edges without a letter reach from the state, or `None` where they are too many.
fn reached_from(
    alloc: Global,
    automaton: &Nfa,
    state: usize,
) -> Result<Option<Vec<usize>>, AllocError>
    requires { state < length automaton.now.states }
    ensures states { IfOk result (λ found. IfSome found (λ reached. AreStates automaton.now reached.items)) }
    ensures closure { IfOk result (λ found. IfSome found (λ reached. IsClosure automaton.now (state ∷ []) reached.items)) }
{
    let mut reached = Vec::new(alloc);
    reached.push(state)?;
    let mut next = 0;
    'reached: while next < reached.len() {
        if next >= MOST_REACHED {
            return Ok(None);
        }
        let from = reached.as_slice()[next];
        add_silent_targets(&mut reached, automaton.edges_from(from))?;
        next += 1;
    }
    Ok(Some(reached))
}

/// Adds the targets of the edges without a letter.
fn add_silent_targets(
    reached: &mut Vec<usize>,
    edges: &[(Option<u32>, usize)],
) -> Result<(), AllocError>
    ensures { OnOk result (AddsTargets edges.now None reached.old.items reached.new.items) }
{
    'edges: for &(letter, to) in edges {
        if letter == None {
            add(reached, to)?;
        }
    }
    Ok(())
}

/// Adds the state, if it is not there.
fn add(reached: &mut Vec<usize>, state: usize) -> Result<(), AllocError>
    ensures { OnOk result (AddsState reached.old.items reached.new.items state) }
{
    if !reached.contains(&state) {
        reached.push(state)?;
    }
    Ok(())
}

/// Whether one of the states accepts.
fn accepts_one(automaton: &Nfa, states: &[usize]) -> bool
    requires { AreStates automaton.now states.now }
    ensures { IsTrue result ↔ AcceptsOne automaton.now states.now }
{
    'states: for state in states {
        if automaton.accepting(*state) {
            return true;
        }
    }
    false
}

/// Adds the edges with a letter of the states that are reached from the state, in order, to those of the state.
fn add_moves(
    alloc: Global,
    builder: &mut NfaBuilder,
    automaton: &Nfa,
    state: usize,
    reached: &[usize],
) -> Result<(), AllocError>
    requires in_range { IsInRange automaton.now }
    requires states { AreStates automaton.now reached.now }
    requires closure { IsClosure automaton.now (state ∷ []) reached.now }
    requires state { state < length automaton.now.states }
    requires before { IsFreed automaton.now builder.old state }
    ensures { OnOk result (IsFreed automaton.now builder.new (state + 1)) }
{
    let moves = moves_of(alloc, automaton, reached)?;
    add_edges(builder, state, &moves)?;
    Ok(())
}

/// The edges with a letter of the states, in order.
fn moves_of(
    alloc: Global,
    automaton: &Nfa,
    states: &[usize],
) -> Result<Vec<(Option<u32>, usize)>, AllocError>
    requires { AreStates automaton.now states.now }
    ensures { IfOk result (λ moves. AreMovesOf automaton.now states.now moves.items) }
{
    let mut moves = Vec::new(alloc);
    'states: for state in states {
        add_lettered(&mut moves, automaton.edges_from(*state))?;
    }
    order_edges(&mut moves);
    Ok(moves)
}

/// Adds the edges with a letter.
fn add_lettered(
    moves: &mut Vec<(Option<u32>, usize)>,
    edges: &[(Option<u32>, usize)],
) -> Result<(), AllocError>
    ensures { OnOk result (AddsLettered edges.now moves.old.items moves.new.items) }
{
    'edges: for &(letter, to) in edges {
        if letter != None {
            moves.push((letter, to))?;
        }
    }
    Ok(())
}
