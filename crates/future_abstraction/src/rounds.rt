//! One round of splitting (E. F. Moore, 1956). A class stays whole where no edge of its states leads to a state whose class changed in the
//! round before. States of other classes are looked up by hashes of their signatures, and each is compared with the first one of its hash.
//! It takes time linear in the states and edges, on average.

ghost use Rattle.std.specs.Prelude.{◌≡◌, ◌<◌, ℕ, true, Some, IsTrue, IfOk, IfSome, nat_eq, length, slice_index};
ghost use Rattle.std.specs.HashMap.{get};
ghost use Rattle.minimise.specs.Refinement.{signature_of, no_word, IsSplit};
ghost use Rattle.future_abstraction.specs.private.Numbers.{is_kept, Keeps, IsNumbered, AreStable, IsUnmoved};

use crate::signature::Signature;
use minimise::split;
use std::alloc::{AllocError, Global};
use std::collections::HashMap;
use word_automata::Dfa;

/// The signatures of a state and of another one, with which it is compared.
#[derive(Drop)]
struct Compared {
    own: Signature,
    other: Signature,
}

/// The classes of states that have the same signature where all are in one class, numbered as `split` numbers them.
pub fn split_first(
    alloc: Global,
    automaton: &Dfa,
    classes: &[usize],
) -> Result<Vec<usize>, AllocError>
    requires { length classes.now ≡ length automaton.now.states }
    ensures { IfOk result (λ finer. IsSplit automaton.now classes.now finer.items) }
{
    let kept = Vec::new(alloc);
    let finer = split_others(alloc, &kept, automaton, classes)?;
    Ok(finer)
}

/// The classes of states that have the same signature by the coarser classes, which were split from older ones in the same way.
pub fn split_again(
    alloc: Global,
    automaton: &Dfa,
    older: &[usize],
    classes: &[usize],
) -> Result<Vec<usize>, AllocError>
    requires older { length older.now ≡ length automaton.now.states }
    requires split { IsSplit automaton.now older.now classes.now }
    ensures { IfOk result (λ finer. IsSplit automaton.now classes.now finer.items) }
{
    let kept = kept_classes(alloc, automaton, older, classes)?;
    let finer = split_others(alloc, &kept, automaton, classes)?;
    Ok(finer)
}

/// The classes of states that have the same signature by the coarser classes, some of which are known to stay whole.
fn split_others(
    alloc: Global,
    kept: &[bool],
    automaton: &Dfa,
    classes: &[usize],
) -> Result<Vec<usize>, AllocError>
    requires count { length classes.now ≡ length automaton.now.states }
    requires kept { AreStable automaton.now classes.now kept.now }
    ensures { IfOk result (λ finer. IsSplit automaton.now classes.now finer.items) }
{
    let mut finer = Vec::with_capacity(alloc, automaton.states())?;
    let mut firsts = HashMap::new(alloc);
    let mut compared = Compared {
        own: Signature::of_no_word(alloc),
        other: Signature::of_no_word(alloc),
    };
    'states: for state in 0..automaton.states() {
        let found = number_of(&mut firsts, &mut compared, kept, automaton, classes, state)?;
        let Some(number) = found else {
            return split(alloc, automaton, classes);
        };
        finer.push(number)?;
    }
    Ok(finer)
}

/// For each class whether it stays whole, since no edge of its states leads to a state whose class is another one than before.
fn kept_classes(
    alloc: Global,
    automaton: &Dfa,
    older: &[usize],
    classes: &[usize],
) -> Result<Vec<bool>, AllocError>
    requires older { length older.now ≡ length automaton.now.states }
    requires split { IsSplit automaton.now older.now classes.now }
    ensures { IfOk result (λ kept. AreStable automaton.now classes.now kept.items) }
{
    let mut kept = vec![in alloc; true; classes.len().saturating_add(1)]?;
    'states: for state in 0..automaton.states() {
        if is_unmoved(automaton, older, classes, state) {
            continue;
        }
        drop_class(&mut kept, classes, state);
    }
    Ok(kept)
}

/// Whether each edge of the state leads to a state whose class is the same in both lists.
fn is_unmoved(automaton: &Dfa, older: &[usize], classes: &[usize], state: usize) -> bool
    requires older { length older.now ≡ length automaton.now.states }
    requires classes { length classes.now ≡ length automaton.now.states }
    requires state { state < length automaton.now.states }
    ensures { IsTrue result → IsUnmoved automaton.now older.now classes.now state }
{
    let edges = automaton.edges_from(state);
    'edges: for &(_, to) in edges {
        if older[to] != classes[to] {
            return false;
        }
    }
    true
}

/// The class of the state is kept no more.
#[tactic(auto, using(crate::proofs::KeptClasses::drop_there, crate::proofs::KeptClasses::drop_past))]
fn drop_class(kept: &mut Vec<bool>, classes: &[usize], state: usize)
    requires { state < length classes.now }
    ensures { (c : ℕ) → is_kept kept.new.items c ≡ true
        → (is_kept kept.old.items c ≡ true) × (c ≡ slice_index classes.now state → ⊥) }
{
    let class = classes[state];
    if class >= kept.len() {
        return;
    }
    kept[class] = false;
}

/// The number of the state, or `None` where its hash is also that of another signature.
fn number_of(
    firsts: &mut HashMap<usize, usize>,
    compared: &mut Compared,
    kept: &[bool],
    automaton: &Dfa,
    classes: &[usize],
    state: usize,
) -> Result<Option<usize>, AllocError>
    requires count { length classes.now ≡ length automaton.now.states }
    requires kept { AreStable automaton.now classes.now kept.now }
    requires state { state < length automaton.now.states }
    ensures { IfOk result (λ found. IfSome found
        (IsNumbered automaton.now classes.now kept.now (get nat_eq firsts.old) (get nat_eq firsts.new) state)) }
{
    let class = classes[state];
    if is_kept(kept, class) {
        return Ok(Some(class));
    }
    if is_dead(automaton, classes, state) {
        return Ok(Some(0));
    }
    compared.own.take(automaton, classes, state)?;
    if compared.own.is_of_no_word() {
        return Ok(Some(0));
    }
    let first = first_of(firsts, compared.own.digest(), state)?;
    if first >= state {
        return Ok(if first == state {
            Some(state + 1)
        } else {
            None
        });
    }
    compared.other.take(automaton, classes, first)?;
    if compared.own.is_same(&compared.other) {
        return Ok(Some(first + 1));
    }
    Ok(None)
}

/// Whether the state is in class 0, does not accept, and has edges into class 0 alone, as nearly all states in class 0 are.
fn is_dead(automaton: &Dfa, classes: &[usize], state: usize) -> bool
    requires count { length classes.now ≡ length automaton.now.states }
    requires state { state < length automaton.now.states }
    ensures { IsTrue result → signature_of automaton.now classes.now state ≡ no_word }
{
    if classes[state] != 0 {
        return false;
    }
    if automaton.accepting(state) {
        return false;
    }
    let edges = automaton.edges_from(state);
    'edges: for &(_, to) in edges {
        if classes[to] != 0 {
            return false;
        }
    }
    true
}

/// Whether the class is noted as one that stays whole.
fn is_kept(kept: &[bool], class: usize) -> bool
    ensures { result ≡ is_kept kept.now class }
{
    match kept.get(class) {
        Some(noted) => *noted,
        None => false,
    }
}

/// The state that is known to have the hash first, which is this one where none is known.
fn first_of(
    firsts: &mut HashMap<usize, usize>,
    hash: usize,
    state: usize,
) -> Result<usize, AllocError>
    ensures known { IfOk result (λ first. get nat_eq firsts.new hash ≡ Some first) }
    ensures keeps { IfOk result (λ first. Keeps (get nat_eq firsts.old) (get nat_eq firsts.new)) }
{
    if let Some(first) = firsts.get(&hash) {
        return Ok(*first);
    }
    firsts.insert(hash, state)?;
    Ok(state)
}
