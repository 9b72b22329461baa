//! Deterministic automata from nondeterministic ones, by the subset construction (M. O. Rabin and D. Scott, 1959) of what a reduction
//! leaves. It costs time linear in the edges that leave the sets, up to sorting. What keeps sets few and cheap, in the order in which
//! it comes:
//!
//! | device | when | what it gains |
//! |---|---|---|
//! | `reduction`: edges without a letter go, with closures | at most 16 states are reached from each | half the time of 2^17 sets |
//! | `reduction`: states from which no word is accepted go | always | rows of bits for 675 of 22,268 states |
//! | states are not compared | at most 4,096 states, two sets for each | 7 to 17 % of four searches, less 6 % of two |
//! | `reduction`: edges go whose targets others simulate | past that | 17 sets in place of 129,728 |
//! | `maximal`: states of a set go that others of it simulate | where states were compared | by a filter, a quarter of the time |
//! | `state_set`: sets are lists | 512 sets, and where lists are short | 4.0 s in place of 4.6 as bits |
//! | `bit_subsets`: sets are bits | at most 4,096 states, lists with a state for four words | 3.6 s in place of 10.4 as lists |
//! | the length of lists is looked at once more | with 16,384 of them | bits where lists grow late |
//! | `signed_sets`: sets that accept the same words are one (atoms) | more states, past 16,384 lists | half the time of Go-back-N |
//! | `turns`: the search for atoms goes on with the lists | an eighth of the edges and words of these | no cliff where none are found |
#![tactic(auto)]

mod lists;
mod maximal;
mod moves;
mod sampling;
mod signed_sets;
mod silent;
mod state_set;
mod subset;
mod subsets;
mod turns;

ghost use Rattle.std.specs.Prelude.{◌≡◌, ◌↔◌, List, ℕ, IsTrue, IfOk, IfSome};
ghost use Rattle.word_automata.specs.Automaton.{accepts, IsValid};
ghost use Rattle.word_automata.specs.Nondeterministic.{Accepts};
ghost use Rattle.bit_subsets.specs.Subsets.{IsPlain};
ghost use Rattle.determinise.specs.private.Determinised.{IsDeterminised};
ghost use Rattle.reduction.specs.Simulation.{AreIncluded, IsSimulation};

use crate::lists::Lists;
use crate::silent::{has_true, silent_flags};
use crate::state_set::states_in;
use crate::subsets::Subsets;
use crate::turns::Turns;
use bit_subsets::BitSubsets;
use exploration::explore_languages;
use reduction::{StatePairs, live_part, pruned, simulation};
pub use state_set::StateSet;
use std::alloc::{AllocError, Global};
use word_automata::{Dfa, Nfa};

/// Of at most so many states,
const UNCOMPARED_STATES: usize = 4_096;

/// so many sets for each are found at first without comparing states.
const SETS_PER_STATE: usize = 2;

/// So many sets of states are found as lists before their length is looked at.
const FEW_SETS: usize = 512;

/// Of at most so many states, none with an edge without a letter, sets are bits where lists are long, and atoms are not looked for.
const BIT_STATES: usize = 4_096;

/// Lists are long that have on average a state for so many words of a set of bits.
const WORDS_PER_STATE: usize = 4;

/// The length of lists is looked at again with so many of them. Of more states, where there are more lists, and more than twice as many as
/// states, the atoms of the states are looked for.
const FIRST_SETS: usize = 16_384;

/// There are then so many turns, each with twice as many sets and more work for the atoms, before the sets are found to the end.
const TURNS: usize = 8;

/// The deterministic automaton of the sets of states that words lead to (M. O. Rabin and D. Scott, 1959), which accepts the same
/// words. States are numbered breadth first, which is no clause here. States from which no word is accepted stand in no set. Of at most
/// 4,096 states, two sets for each are found at first; where there are more sets or states, states are compared, and where some simulate
/// others it begins anew: those that others of it simulate stand in no set, and edges whose targets are simulated by those of edges beside
/// them go. A set is a list of states. Of at most 4,096 states, none with an edge without a letter, it is a bit for each state from more
/// than 512 sets on, or from more than 16,384, if the lists have a state for four words of a set of bits. Of more states, with more than
/// 16,384 lists, and more than twice as many as states, atoms of the states are looked for, by which sets that accept the same words
/// become one where a sample tells that many do.
/// The time is linear in the edges of the automaton and in those that leave the sets' states, up to sorting, on average. Where a letter
/// leads from one state to two, at most 2 to the 18 pairs of states are compared in at most 16 rounds, and a set may take its square.
pub fn determinise(alloc: Global, automaton: &Nfa) -> Result<Dfa, AllocError>
    ensures language { IfOk result (λ dfa. (w : List ℕ) → IsTrue (accepts dfa w) ↔ Accepts automaton.now w) }
    ensures letters { IfOk result (λ dfa. dfa.letters ≡ automaton.now.letters) }
    ensures valid { IfOk result IsValid }
{
    match live_part(alloc, automaton)? {
        Some(live) => subsets_of_live(alloc, &live),
        None => subsets_of_live(alloc, automaton),
    }
}

/// The deterministic automaton of the sets of states that words lead to where these are few, and else without edges that others match.
fn subsets_of_live(alloc: Global, automaton: &Nfa) -> Result<Dfa, AllocError>
    ensures { IfOk result (IsDeterminised automaton.now) }
{
    let silent = silent_flags(alloc, automaton)?;
    let none = StatePairs::new(alloc)?;
    let subsets = Subsets::new(automaton, &silent, &none);
    few_or_compared_subsets_of(alloc, &subsets)
}

/// The same of the system of the sets, of which states were not compared.
fn few_or_compared_subsets_of<'a>(
    alloc: Global,
    subsets: &'a Subsets<'a>,
) -> Result<Dfa, AllocError>
    ensures { IfOk result (IsDeterminised subsets.now.automaton.now) }
{
    let begun = Lists::begin(alloc, subsets)?;
    let few = begun.advance(alloc, uncompared_sets(subsets.automaton.states()))?;
    if few.is_done() {
        return few.finish();
    }
    match compared_subsets_of(alloc, subsets.automaton)? {
        Some(dfa) => Ok(dfa),
        None => subsets_from(alloc, few),
    }
}

/// So many sets of so many states are found before states are compared.
fn uncompared_sets(states: usize) -> usize {
    if states > UNCOMPARED_STATES {
        return 0;
    }
    states.saturating_mul(SETS_PER_STATE)
}

/// The deterministic automaton of the sets of states, without edges that others match, or `None` where no simulation is found.
fn compared_subsets_of(alloc: Global, automaton: &Nfa) -> Result<Option<Dfa>, AllocError>
    ensures { IfOk result (λ found. IfSome found (IsDeterminised automaton.now)) }
{
    match simulation(alloc, automaton)? {
        Some(pairs) => Ok(Some(pruned_subsets_of(alloc, automaton, &pairs)?)),
        None => Ok(None),
    }
}

/// The deterministic automaton of the sets of states that words lead to, without edges that others match.
fn pruned_subsets_of(alloc: Global, automaton: &Nfa, pairs: &StatePairs) -> Result<Dfa, AllocError>
    requires { IsSimulation automaton.now pairs.now }
    ensures { IfOk result (IsDeterminised automaton.now) }
{
    let pruned = pruned(alloc, automaton, pairs)?;
    subsets_of(alloc, &pruned, pairs)
}

/// The deterministic automaton of the sets of states that words lead to, without states that others of the set simulate.
fn subsets_of(alloc: Global, automaton: &Nfa, pairs: &StatePairs) -> Result<Dfa, AllocError>
    requires { AreIncluded automaton.now pairs.now }
    ensures { IfOk result (IsDeterminised automaton.now) }
{
    let silent = silent_flags(alloc, automaton)?;
    let subsets = Subsets::new(automaton, &silent, pairs);
    subsets_from(alloc, Lists::begin(alloc, &subsets)?)
}

/// The same, of which some sets were found as lists. Where edges without a letter leave states, all are.
fn subsets_from(alloc: Global, begun: Lists) -> Result<Dfa, AllocError>
    ensures { IfOk result (IsDeterminised begun.entry.subsets.now.automaton.now) }
{
    if has_true(begun.subsets.silent) {
        return begun.finish();
    }
    plain_subsets_from(alloc, begun)
}

/// The same without such edges: few sets as lists, and of more the languages of lists, or bits where lists are long.
fn plain_subsets_from(alloc: Global, begun: Lists) -> Result<Dfa, AllocError>
    requires { (p : ℕ) → IsPlain begun.subsets.now.automaton.now p }
    ensures { IfOk result (IsDeterminised begun.entry.subsets.now.automaton.now) }
{
    let states = begun.subsets.automaton.states();
    let few = begun.advance(alloc, FEW_SETS)?;
    let first = first_sets(few.states(), states);
    let found = few.advance(alloc, first)?;
    if found.is_done() {
        return found.finish();
    }
    if states > BIT_STATES {
        return lists_in_turns(alloc, found, first);
    }
    if are_long(found.states(), states) {
        return bit_subsets_of(alloc, found.subsets);
    }
    found.finish()
}

/// So many lists of so many states are found before bits or atoms are taken, by the lists that were found. None where these are long.
fn first_sets(few: &[StateSet], states: usize) -> usize {
    if states > BIT_STATES {
        return FIRST_SETS.max(states.saturating_mul(2));
    }
    if are_long(few, states) { 0 } else { FIRST_SETS }
}

/// Whether sets of bits of so many states have few words for what the lists have of states.
fn are_long(lists: &[StateSet], states: usize) -> bool {
    let words = lists.len().saturating_mul(states / 64 + 1);
    states_in(lists).saturating_mul(WORDS_PER_STATE) >= words
}

/// The deterministic automaton of the sets of states, of which so many were found as lists, in turns with the search for atoms.
fn lists_in_turns(alloc: Global, found: Lists, first: usize) -> Result<Dfa, AllocError>
    requires { (p : ℕ) → IsPlain found.subsets.now.automaton.now p }
    ensures { IfOk result (IsDeterminised found.entry.subsets.now.automaton.now) }
{
    let mut turns = Turns::begin(alloc, found)?;
    'turns: for turn in 0..TURNS {
        if turns.is_over() {
            break;
        }
        turns = turns.next(alloc, first << (turn + 1))?;
    }
    turns.finish(alloc)
}

/// The deterministic automaton of the sets of states, as bits.
fn bit_subsets_of(alloc: Global, subsets: &Subsets) -> Result<Dfa, AllocError>
    requires { (p : ℕ) → IsPlain subsets.now.automaton.now p }
    ensures { IfOk result (IsDeterminised subsets.now.automaton.now) }
{
    let sets = BitSubsets::new(alloc, subsets.automaton, subsets.pairs)?;
    explore_languages(alloc, &sets)
}
