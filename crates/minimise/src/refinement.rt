//! The classes of states that accept the same words. They are refined in rounds of hashes, then by splitters, and after both it is seen
//! whether they are stable; where they were not, rounds over all states (E. F. Moore, 1956) would go on.

ghost use Rattle.std.specs.Prelude.{◌≡◌, ◌<◌, ◌^◌, IfOk, OnOk, length};
ghost use Rattle.std.specs.HashMap.{get};
ghost use Rattle.minimise.specs.Signatures.{same_signature};
ghost use Rattle.word_automata.specs.Path.{edges_of};
ghost use Rattle.std.specs.List.{filter_map};
ghost use Rattle.word_automata.specs.Automaton.{IsValid};
ghost use Rattle.minimise.specs.Refinement.{live_edge, signature_of, no_word, FindsClass, IsSplit, AreCoarse, AreLanguageClasses};

use crate::hashing::hashed_rounds;
use crate::numbering::by_least_states;
use crate::signature::Signature;
use crate::splitters::refine;
use crate::stability::is_stable;
use std::alloc::{AllocError, Global};
use std::collections::HashMap;
use word_automata::Dfa;

/// The class of each state: 0 where no word is accepted from it, and else one more than the least state from which the same words
/// are. It takes time linear in the edges times the logarithm of the states, up to sorting by letters, on average over hashing.
pub fn classes(alloc: Global, automaton: &Dfa) -> Result<Vec<usize>, AllocError>
    ensures { IfOk result (λ classes. AreLanguageClasses automaton.now classes.items) }
{
    let (hashed, before) = hashed_rounds(alloc, automaton)?;
    let classes = by_least_states(alloc, automaton, &hashed)?;
    if is_stable(alloc, automaton, &classes)? {
        return Ok(classes);
    }
    let coarser = by_least_states(alloc, automaton, &before)?;
    split_further(alloc, automaton, classes, &coarser)
}

/// The same classes from coarser ones, refined by splitters.
fn split_further(
    alloc: Global,
    automaton: &Dfa,
    coarse: Vec<usize>,
    coarser: &[usize],
) -> Result<Vec<usize>, AllocError>
    requires valid { IsValid automaton.now }
    requires coarse { AreCoarse automaton.now coarse.items }
    ensures { IfOk result (λ classes. AreLanguageClasses automaton.now classes.items) }
{
    let refined = refine(alloc, automaton, coarse, coarser)?;
    let classes = by_least_states(alloc, automaton, &refined)?;
    if is_stable(alloc, automaton, &classes)? {
        return Ok(classes);
    }
    rounds(alloc, automaton, classes)
}

/// Splits the classes, round by round over all states, until a round changes nothing.
fn rounds(alloc: Global, automaton: &Dfa, coarse: Vec<usize>) -> Result<Vec<usize>, AllocError>
    requires valid { IsValid automaton.now }
    requires coarse { AreCoarse automaton.now coarse.items }
    ensures { IfOk result (λ classes. AreLanguageClasses automaton.now classes.items) }
{
    let mut classes = coarse;
    'rounds: loop {
        let finer = split(alloc, automaton, &classes)?;
        if finer == classes {
            return Ok(classes);
        }
        classes = finer;
    }
}

/// The classes of states that have the same signature by the coarser classes: 0 where it is that of no word, and else one more than the
/// least state that has it. It takes time linear in the states and edges, on average.
pub fn split(alloc: Global, automaton: &Dfa, classes: &[usize]) -> Result<Vec<usize>, AllocError>
    requires { length classes.now ≡ length automaton.now.states }
    ensures { IfOk result (λ finer. IsSplit automaton.now classes.now finer.items) }
{
    let mut finer = Vec::with_capacity(alloc, automaton.states())?;
    let mut firsts = HashMap::new(alloc);
    'states: for state in 0..automaton.states() {
        let signature = signature_of(alloc, automaton, classes, state)?;
        finer.push(class_of(&mut firsts, signature, state)?)?;
    }
    Ok(finer)
}

/// The signature of the state by the classes.
fn signature_of(
    alloc: Global,
    automaton: &Dfa,
    classes: &[usize],
    state: usize,
) -> Result<Signature, AllocError>
    requires count { length classes.now ≡ length automaton.now.states }
    requires state { state < length automaton.now.states }
    ensures { IfOk result (λ signature. signature ≡ signature_of automaton.now classes.now state) }
{
    let mut edges = Vec::with_capacity(alloc, automaton.edges_from(state).len())?;
    put_live_edges(&mut edges, automaton, classes, state)?;
    Ok(Signature::new(classes[state], automaton.accepting(state), edges))
}

/// Puts the letters of the state that lead to classes other than 0, each with the class, in the place of what the list has.
pub fn put_live_edges(
    live: &mut Vec<(u32, usize)>,
    automaton: &Dfa,
    classes: &[usize],
    state: usize,
) -> Result<(), AllocError>
    requires count { length classes.now ≡ length automaton.now.states }
    requires state { state < length automaton.now.states }
    ensures { OnOk result (live.new.items ≡ filter_map (live_edge classes.now) (edges_of automaton.now.states state)) }
{
    live.clear();
    let edges = automaton.edges_from(state);
    'edges: for &(letter, to) in edges {
        if classes[to] != 0 {
            live.push((letter, classes[to]))?;
        }
    }
    Ok(())
}

/// The class of the state with the signature. A signature that is new gets the class of the state.
fn class_of(
    firsts: &mut HashMap<Signature, usize>,
    signature: Signature,
    state: usize,
) -> Result<usize, AllocError>
    requires { state < 2 ^ 63 }
    ensures { IfOk result (FindsClass no_word (get same_signature firsts.old) (get same_signature firsts.new) signature state) }
{
    if signature.is_of_no_word() {
        return Ok(0);
    }
    if let Some(class) = firsts.get(&signature) {
        return Ok(*class);
    }
    firsts.insert(signature, state + 1)?;
    Ok(state + 1)
}
