//! The automaton of some states of another one, numbered by their places in a list, with the edges and start states among them. A table
//! has the place of each state. Edges are put in order where they are not; where the list is in order, so are those with new numbers.
//! It takes time linear in the states and edges, up to sorting.

ghost use Rattle.std.specs.Prelude.{◌≡◌, ◌+◌, ◌<◌, [], None, All, Contains, IsPermutation, IfOk, IfSome, OnOk, length};
ghost use Rattle.word_automata.specs.StateSets.{AreStates};
ghost use Rattle.reduction.specs.private.Renumbering.{IsPlaceOf, ArePlaces, AddsPlacedStarts, AddsPlaced, IsPartBelow, IsPart, states_of};
ghost use Rattle.reduction.specs.private.Renumbering.{HasLetters};

use crate::order::{are_ordered, order_edges};
use std::alloc::{AllocError, Global};
use word_automata::{Nfa, NfaBuilder};

/// The automaton of the states, numbered by their places, with edges in order.
pub fn part_of(alloc: Global, automaton: &Nfa, states: &[usize]) -> Result<Nfa, AllocError>
    requires { AreStates automaton.now states.now }
    ensures { IfOk result (IsPart automaton.now states.now) }
{
    let mut builder = states_of(alloc, automaton, states)?;
    add_part(alloc, &mut builder, automaton, states)?;
    Ok(builder.finish())
}

/// Adds to the states the edges and start states among them.
fn add_part(
    alloc: Global,
    builder: &mut NfaBuilder,
    automaton: &Nfa,
    states: &[usize],
) -> Result<(), AllocError>
    requires states { AreStates automaton.now states.now }
    requires alone { builder.old ≡ states_of automaton.now states.now }
    ensures { OnOk result (IsPart automaton.now states.now builder.new) }
{
    let places = places_of(alloc, automaton.states(), states)?;
    add_placed_starts(builder, states, &places, automaton.starts())?;
    'places: for place in 0..states.len() {
        add_ordered(alloc, builder, automaton, states, &places, place)?;
    }
    Ok(())
}

/// A table of the places of the states, which are less than the count. It has any number for others.
fn places_of(alloc: Global, count: usize, states: &[usize]) -> Result<Vec<usize>, AllocError>
    requires { All (λ q. q < count) states.now }
    ensures { IfOk result (λ places. ArePlaces states.now places.items) }
{
    let mut places = vec![in alloc; 0usize; count]?;
    'states: for place in 0..states.len() {
        places[states[place]] = place;
    }
    Ok(places)
}

/// The place of the state, if it is one of the states.
fn place_of(states: &[usize], places: &[usize], state: usize) -> Option<usize>
    requires { ArePlaces states.now places.now }
    ensures some { IfSome result (λ place. IsPlaceOf states.now place state) }
    ensures none { result ≡ None → Contains states.now state → ⊥ }
{
    if state >= places.len() {
        return None;
    }
    let place = places[state];
    if place >= states.len() {
        return None;
    }
    if states[place] != state {
        return None;
    }
    Some(place)
}

/// The states without their edges, none of them a start state.
fn states_of(alloc: Global, automaton: &Nfa, states: &[usize]) -> Result<NfaBuilder, AllocError>
    requires { AreStates automaton.now states.now }
    ensures { IfOk result (λ built. built ≡ states_of automaton.now states.now) }
{
    let mut builder = NfaBuilder::new(alloc, automaton.letters());
    'states: for state in states {
        builder.state(automaton.accepting(*state))?;
    }
    Ok(builder)
}

/// Adds as start states the places of those of the numbers that are among the states.
fn add_placed_starts(
    builder: &mut NfaBuilder,
    states: &[usize],
    places: &[usize],
    numbers: &[usize],
) -> Result<(), AllocError>
    requires places { ArePlaces states.now places.now }
    requires size { length builder.old.states ≡ length states.now }
    requires none { builder.old.starts ≡ [] }
    ensures { OnOk result (AddsPlacedStarts states.now numbers.now builder.old builder.new) }
{
    'numbers: for number in numbers {
        let Some(place) = place_of(states, places, *number) else {
            continue;
        };
        builder.start(place)?;
    }
    Ok(())
}

/// Adds the edges of the state at the place, in order.
fn add_ordered(
    alloc: Global,
    builder: &mut NfaBuilder,
    automaton: &Nfa,
    states: &[usize],
    places: &[usize],
    place: usize,
) -> Result<(), AllocError>
    requires states { AreStates automaton.now states.now }
    requires places { ArePlaces states.now places.now }
    requires place { place < length states.now }
    requires before { IsPartBelow automaton.now states.now place builder.old }
    ensures { OnOk result (IsPartBelow automaton.now states.now (place + 1) builder.new) }
{
    let edges = automaton.edges_from(states[place]);
    if are_ordered(edges) {
        add_placed(builder, states, places, place, edges)?;
        return Ok(());
    }
    let ordered = in_order(alloc, edges)?;
    add_placed(builder, states, places, place, &ordered)?;
    Ok(())
}

/// The edges in order.
fn in_order(
    alloc: Global,
    edges: &[(Option<u32>, usize)],
) -> Result<Vec<(Option<u32>, usize)>, AllocError>
    ensures { IfOk result (λ ordered. IsPermutation edges.now ordered.items) }
{
    let mut ordered = Vec::from_slice(alloc, edges)?;
    order_edges(&mut ordered);
    Ok(ordered)
}

/// Adds the edges that lead to the states to those of the place, with the places of their targets.
fn add_placed(
    builder: &mut NfaBuilder,
    states: &[usize],
    places: &[usize],
    place: usize,
    edges: &[(Option<u32>, usize)],
) -> Result<(), AllocError>
    requires places { ArePlaces states.now places.now }
    requires place { place < length states.now }
    requires size { length builder.old.states ≡ length states.now }
    requires letters { HasLetters builder.old.letters edges.now }
    ensures { OnOk result (AddsPlaced states.now place edges.now builder.old builder.new) }
{
    'edges: for &(letter, to) in edges {
        let Some(target) = place_of(states, places, to) else {
            continue;
        };
        builder.edge(place, letter, target)?;
    }
    Ok(())
}
