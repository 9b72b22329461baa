//! A simulation between the states of an automaton (R. Milner, 1971), as far as it is asked for: the pairs of states to which one
//! letter leads from one state, and the pairs on which these depend. Those that do not hold are taken out, in rounds, until a round
//! takes none out (the greatest fixpoint). There are at most 2 to the 18 pairs and 16 rounds, and pairs are asked for at most 512 times
//! for each state and edge, or there is no answer. Pairs that short paths tell apart are not added. Where no letter leads to two
//! states, it costs one pass over the edges.

ghost use Rattle.std.specs.Prelude.{◌≡◌, false, IsTrue, IfOk, IfSome};
ghost use Rattle.reduction.specs.Simulation.{IsBelow, IsMatched, AreMatched, IsSimulatedBy, IsSimulation};

use crate::order::letter_number;
use crate::state_pairs::StatePairs;
use crate::traces::{may_simulate, trace_filters};
use std::alloc::{AllocError, Global};
use word_automata::Nfa;

/// With more pairs there is no answer.
const MOST_PAIRS: usize = 262_144;

/// Nor where pairs are asked for more often than so many times for each state and edge.
const ASKS_PER_EDGE: usize = 512;

/// Nor where they are asked for more often than so many times.
const MOST_ASKS: usize = 16 * MOST_PAIRS;

/// Nor after so many rounds.
const MOST_ROUNDS: usize = 16;

/// A simulation that has two states to which one letter leads from one state, or `None` where none was found.
pub fn simulation(alloc: Global, automaton: &Nfa) -> Result<Option<StatePairs>, AllocError>
    ensures { IfOk result (λ found. IfSome found (IsSimulation automaton.now)) }
{
    if !has_siblings(automaton) {
        return Ok(None);
    }
    let filters = trace_filters(alloc, automaton)?;
    let mut pairs = StatePairs::new(alloc)?;
    ask_siblings(&mut pairs, automaton, &filters)?;
    let siblings = pairs.len();
    if siblings == 0 || !ask_all(&mut pairs, automaton, &filters)? {
        return Ok(None);
    }
    'rounds: for _ in 0..MOST_ROUNDS {
        let is_changed = take_out_unmatched(&mut pairs, automaton);
        if !is_changed {
            let is_some = pairs.list_above(automaton.states(), siblings)?;
            if is_some {
                return Ok(Some(pairs));
            }
            return Ok(None);
        }
    }
    Ok(None)
}

/// Whether one letter leads to two states from one state, whose edges are in order.
fn has_siblings(automaton: &Nfa) -> bool {
    'states: for state in 0..automaton.states() {
        if are_siblings(automaton.edges_from(state)) {
            return true;
        }
    }
    false
}

/// Whether edges side by side have one letter and different targets.
fn are_siblings(edges: &[(Option<u32>, usize)]) -> bool {
    'edges: for at in 1..edges.len() {
        let (before, from) = edges[at - 1];
        let (letter, to) = edges[at];
        if from != to && before == letter {
            return true;
        }
    }
    false
}

/// Adds the pairs of states to which one letter leads from one state.
fn ask_siblings(
    pairs: &mut StatePairs,
    automaton: &Nfa,
    filters: &[u64],
) -> Result<(), AllocError> {
    'states: for state in 0..automaton.states() {
        ask_within(pairs, automaton.edges_from(state), filters)?;
    }
    Ok(())
}

/// Adds the pairs of different targets of the edges, in order, with one letter. Of equal edges the first is looked at.
fn ask_within(
    pairs: &mut StatePairs,
    edges: &[(Option<u32>, usize)],
    filters: &[u64],
) -> Result<(), AllocError> {
    let (mut from, mut last) = (0, None);
    'edges: for &(letter, to) in edges {
        if pairs.len() > MOST_PAIRS || pairs.asked() > MOST_ASKS {
            return Ok(());
        }
        if last != Some((letter, to)) {
            from = first_with(edges, from, letter);
            ask_above(
                pairs,
                edges,
                from,
                end_of_letter(edges, from, letter),
                to,
                filters,
            )?;
            last = Some((letter, to));
        }
    }
    Ok(())
}

/// Adds the pairs on which the pairs depend, and tells whether there are not too many.
fn ask_all(pairs: &mut StatePairs, automaton: &Nfa, filters: &[u64]) -> Result<bool, AllocError> {
    let most = most_asks(automaton);
    'pairs: for place in 0..MOST_PAIRS {
        if place >= pairs.len() {
            return Ok(true);
        }
        if pairs.len() > MOST_PAIRS || pairs.asked() > most {
            return Ok(false);
        }
        let (low, high) = pairs.pair(place);
        ask_after(pairs, automaton, low, high, filters)?;
    }
    Ok(false)
}

/// So often may pairs be asked for.
fn most_asks(automaton: &Nfa) -> usize {
    let mut size = automaton.states();
    'states: for state in 0..automaton.states() {
        size = size.saturating_add(automaton.edges_from(state).len());
    }
    size.saturating_mul(ASKS_PER_EDGE).min(MOST_ASKS)
}

/// Adds the pairs on which the pair depends, unless it does not hold at once.
fn ask_after(
    pairs: &mut StatePairs,
    automaton: &Nfa,
    low: usize,
    high: usize,
    filters: &[u64],
) -> Result<(), AllocError> {
    if low >= automaton.states() || high >= automaton.states() {
        return Ok(());
    }
    if automaton.accepting(low) && !automaton.accepting(high) {
        return Ok(());
    }
    let edges = automaton.edges_from(low);
    let others = automaton.edges_from(high);
    if may_match(filters, edges, others) {
        ask_targets(pairs, edges, others, filters)?;
    }
    Ok(())
}

/// Whether the filters allow that the others match each of the edges, both in order.
fn may_match(
    filters: &[u64],
    edges: &[(Option<u32>, usize)],
    others: &[(Option<u32>, usize)],
) -> bool {
    let mut from = 0;
    'edges: for &(letter, to) in edges {
        from = first_with(others, from, letter);
        if !may_match_one(filters, others, from, letter, to) {
            return false;
        }
    }
    true
}

/// Whether the others from the place on begin with edges with the letter, and the filters allow that one leads to a state above.
fn may_match_one(
    filters: &[u64],
    others: &[(Option<u32>, usize)],
    from: usize,
    letter: Option<u32>,
    to: usize,
) -> bool {
    'edges: for at in from..others.len() {
        if others[at].0 != letter {
            return false;
        }
        if may_simulate(filters, to, others[at].1) {
            return true;
        }
    }
    false
}

/// Adds the pairs of a target of the edges and the targets of the others with the same letter, unless it is one of them.
fn ask_targets(
    pairs: &mut StatePairs,
    edges: &[(Option<u32>, usize)],
    others: &[(Option<u32>, usize)],
    filters: &[u64],
) -> Result<(), AllocError> {
    let mut from = 0;
    'edges: for &(letter, to) in edges {
        from = first_with(others, from, letter);
        let end = end_of_letter(others, from, letter);
        if !has_target(others, from, end, to) {
            ask_above(pairs, others, from, end, to, filters)?;
        }
    }
    Ok(())
}

/// The first place from there on whose letter is not smaller.
fn first_with(edges: &[(Option<u32>, usize)], from: usize, letter: Option<u32>) -> usize {
    let number = letter_number(letter);
    'edges: for at in from..edges.len() {
        if letter_number(edges[at].0) >= number {
            return at;
        }
    }
    edges.len()
}

/// The first place from there on with another letter.
fn end_of_letter(edges: &[(Option<u32>, usize)], from: usize, letter: Option<u32>) -> usize {
    'edges: for at in from..edges.len() {
        if edges[at].0 != letter {
            return at;
        }
    }
    edges.len()
}

/// Whether an edge between the places leads to the state.
fn has_target(edges: &[(Option<u32>, usize)], from: usize, end: usize, to: usize) -> bool {
    'edges: for at in from..end {
        if at < edges.len() && edges[at].1 == to {
            return true;
        }
    }
    false
}

/// Adds the pairs of the state and other targets of the edges between the places that the filters allow.
fn ask_above(
    pairs: &mut StatePairs,
    edges: &[(Option<u32>, usize)],
    from: usize,
    end: usize,
    to: usize,
    filters: &[u64],
) -> Result<(), AllocError> {
    'edges: for at in from..end {
        if at < edges.len() && edges[at].1 != to {
            ask(pairs, filters, to, edges[at].1)?;
        }
    }
    Ok(())
}

/// Adds the pair, if the filters allow it.
fn ask(pairs: &mut StatePairs, filters: &[u64], low: usize, high: usize) -> Result<(), AllocError> {
    pairs.count_ask();
    if may_simulate(filters, low, high) {
        pairs.add(low, high)?;
    }
    Ok(())
}

/// Takes out pairs that do not hold, and tells whether there were some.
fn take_out_unmatched(pairs: &mut StatePairs, automaton: &Nfa) -> bool
    ensures { result ≡ false → IsSimulation automaton.now pairs.new }
{
    let mut is_changed = false;
    let mut place = pairs.len();
    'pairs: while place > 0 {
        place -= 1;
        let (low, high) = pairs.pair(place);
        if !is_simulated(pairs, automaton, low, high) {
            pairs.take_out(place);
            is_changed = true;
        }
    }
    is_changed
}

/// Whether the state `high` accepts if `low` does, and has an edge for each edge of `low`, to a state above.
fn is_simulated(pairs: &StatePairs, automaton: &Nfa, low: usize, high: usize) -> bool
    ensures { IsTrue result → IsSimulatedBy automaton.now pairs.now low high }
{
    if low == high {
        return true;
    }
    if low >= automaton.states() || high >= automaton.states() {
        return false;
    }
    if automaton.accepting(low) && !automaton.accepting(high) {
        return false;
    }
    are_matched(pairs, automaton.edges_from(low), automaton.edges_from(high))
}

/// Whether the others have an edge for each of the edges, to a state above. Both are in order.
fn are_matched(
    pairs: &StatePairs,
    edges: &[(Option<u32>, usize)],
    others: &[(Option<u32>, usize)],
) -> bool
    ensures { IsTrue result → AreMatched pairs.now edges.now others.now }
{
    let mut from = 0;
    'edges: for &(letter, to) in edges {
        from = first_with(others, from, letter);
        if !is_matched(pairs, others, from, letter, to) {
            return false;
        }
    }
    true
}

/// Whether the edges from the place on begin with edges with the letter, one of them to a state above.
pub fn is_matched(
    pairs: &StatePairs,
    edges: &[(Option<u32>, usize)],
    from: usize,
    letter: Option<u32>,
    to: usize,
) -> bool
    ensures { IsTrue result → IsMatched pairs.now edges.now (letter, to) }
{
    'edges: for at in from..edges.len() {
        if edges[at].0 != letter {
            return false;
        }
        if is_below(pairs, to, edges[at].1) {
            return true;
        }
    }
    false
}

/// Whether the states are one, or one of the pairs.
pub fn is_below(pairs: &StatePairs, low: usize, high: usize) -> bool
    ensures { IsTrue result → IsBelow pairs.now low high }
{
    low == high || pairs.contains(low, high)
}
