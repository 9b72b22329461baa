//! Refinement by splitters (J. Hopcroft, 1971; for automata that lack edges A. Valmari and P. Lehtinen, 2008).
//!
//! A splitter is a class that waits. For each letter that leads into it, the states from which it does leave their class, where others
//! stay. Of the two parts the smaller waits, and both where the class did. It takes time linear in the edges times the logarithm of the
//! states, up to sorting by letters, and stops only where each class was a splitter, or the rest of one.

ghost use Rattle.std.specs.Prelude.{◌≡◌, ◌<◌, ◌≤◌, ℕ, IfOk, OnOk, length, nat_eq, slice_index};
ghost use Rattle.word_automata.specs.Automaton.{Automaton, IsValid};
ghost use Rattle.exploration.specs.Incoming.{AreIncoming};
ghost use Rattle.minimise.specs.Refinement.{AreCoarse};
ghost use Rattle.minimise.specs.private.Rounds.{AreToldApart};
ghost use Rattle.minimise.specs.private.Splitters.{AreListed, KeepsMembers, AddsMovesOf, AreMovesInto, HasOrderedLetters, IsRun, IsSaturated, AreSources, SplitsSoundly, AreMoved, target_of};

use crate::parts::Parts;
use crate::rows::class_of;
use exploration::Incoming;
use std::alloc::{AllocError, Global};
use word_automata::Dfa;

/// Finer classes of states of which any two different ones are told apart by words. That states in one class accept the same words is
/// no clause: a pass over the classes sees it afterwards.
pub fn refine(
    alloc: Global,
    automaton: &Dfa,
    coarse: Vec<usize>,
    coarser: &[usize],
) -> Result<Vec<usize>, AllocError>
    requires valid { IsValid automaton.now }
    requires coarse { AreCoarse automaton.now coarse.items }
    ensures { IfOk result (λ classes. AreToldApart automaton.now classes.items) }
{
    let incoming = Incoming::new(alloc, automaton)?;
    let mut parts = Parts::new(alloc, &coarse, coarser)?;
    let mut members = members(alloc, &coarse)?;
    let mut classes = coarse;
    split_by_classes(alloc, &incoming, &mut classes, &mut members, &mut parts)?;
    Ok(classes)
}

/// Splits the classes by those that wait, until none does.
fn split_by_classes(
    alloc: Global,
    incoming: &Incoming,
    classes: &mut Vec<usize>,
    members: &mut Vec<Vec<usize>>,
    parts: &mut Parts,
) -> Result<(), AllocError>
    requires { AreListed classes.old.items members.old.items }
    ensures { OnOk result ((m : Automaton) → IsValid m → AreIncoming m incoming.now
        → AreToldApart m classes.old.items → AreToldApart m classes.new.items) }
{
    let mut found = Vec::new(alloc);
    'splitters: for _ in 0..usize::MAX {
        let Some(splitter) = parts.next_splitter() else {
            return Ok(());
        };
        find_moves(incoming, classes, members, splitter, &mut found)?;
        split_by_letters(classes, members, parts, &found)?;
    }
    Ok(())
}

/// For each class but 0 the list of its states.
fn members(alloc: Global, classes: &[usize]) -> Result<Vec<Vec<usize>>, AllocError>
    requires { (q : ℕ) → slice_index classes.now q ≤ length classes.now }
    ensures { IfOk result (λ members. AreListed classes.now members.items) }
{
    let mut lists = empty_lists(alloc, classes.len() + 1)?;
    'states: for state in 0..classes.len() {
        let class = classes[state];
        if class != 0 {
            let list: &mut Vec<usize> = &mut lists[class];
            list.push(state)?;
        }
    }
    Ok(lists)
}

/// So many empty lists.
fn empty_lists(alloc: Global, count: usize) -> Result<Vec<Vec<usize>>, AllocError>
    ensures { IfOk result (λ lists. length lists.items ≡ count) }
{
    let mut lists = Vec::with_capacity(alloc, count)?;
    'lists: for _ in 0..count {
        lists.push(Vec::new(alloc))?;
    }
    Ok(lists)
}

/// Puts the edges into the class, each its letter with the state that it leaves, in the place of what the list has, sorted by letters.
fn find_moves(
    incoming: &Incoming,
    classes: &[usize],
    members: &mut Vec<Vec<usize>>,
    class: usize,
    found: &mut Vec<(u32, usize)>,
) -> Result<(), AllocError>
    requires { AreListed classes.now members.old.items }
    ensures listed { OnOk result (AreListed classes.now members.new.items) }
    ensures moves { OnOk result (AreMovesInto incoming.now classes.now class found.new.items) }
    ensures ordered { OnOk result (HasOrderedLetters found.new.items) }
{
    found.clear();
    if class != 0 && class < members.len() {
        let list: &mut Vec<usize> = &mut members[class];
        keep_members(list, classes, class);
        put_moves(incoming, classes, list, class, found)?;
        found.sort_unstable_by_key(|&(letter, _)| letter);
    }
    Ok(())
}

/// Drops states that are in other classes by now.
fn keep_members(list: &mut Vec<usize>, classes: &[usize], class: usize)
    ensures { KeepsMembers classes.now class list.old.items list.new.items }
{
    list.retain(|state| is_in(classes, class, *state));
}

/// Whether the state is in the class.
fn is_in(classes: &[usize], class: usize, state: usize) -> bool
    ensures { result ≡ nat_eq (slice_index classes.now state) class }
{
    class_of(classes, state) == class
}

/// Adds the edges into the states of the list that are in the class.
fn put_moves(
    incoming: &Incoming,
    classes: &[usize],
    states: &[usize],
    class: usize,
    found: &mut Vec<(u32, usize)>,
) -> Result<(), AllocError>
    ensures { OnOk result (AddsMovesOf incoming.now classes.now class states.now found.old.items found.new.items) }
{
    'states: for state in states {
        if class_of(classes, *state) == class {
            incoming.put_into(*state, found)?;
        }
    }
    Ok(())
}

/// Splits the classes by the sources of the moves, one letter after another.
fn split_by_letters(
    classes: &mut Vec<usize>,
    members: &mut Vec<Vec<usize>>,
    parts: &mut Parts,
    moves: &[(u32, usize)],
) -> Result<(), AllocError>
    requires listed { AreListed classes.old.items members.old.items }
    requires ordered { HasOrderedLetters moves.now }
    ensures listed { OnOk result (AreListed classes.new.items members.new.items) }
    ensures sound { OnOk result (SplitsSoundly (λ m. IsSaturated m moves.now) classes.old.items classes.new.items) }
{
    let mut at = 0;
    'runs: while at < moves.len() {
        let end = end_of_run(moves, at);
        split(classes, members, parts, &moves[at..end])?;
        at = end;
    }
    Ok(())
}

/// The place after the last move with the letter of the move at the place.
fn end_of_run(moves: &[(u32, usize)], at: usize) -> usize
    requires within { at < length moves.now }
    requires ordered { HasOrderedLetters moves.now }
    ensures { IsRun moves.now at result }
{
    let mut end = at + 1;
    'run: while end < moves.len() && moves[end].0 == moves[at].0 {
        end += 1;
    }
    end
}

/// Splits the classes by the sources of the moves.
fn split(
    classes: &mut Vec<usize>,
    members: &mut Vec<Vec<usize>>,
    parts: &mut Parts,
    moves: &[(u32, usize)],
) -> Result<(), AllocError>
    requires { AreListed classes.old.items members.old.items }
    ensures listed { OnOk result (AreListed classes.new.items members.new.items) }
    ensures sound { OnOk result (SplitsSoundly (λ m. AreSources m moves.now) classes.old.items classes.new.items) }
{
    parts.choose(classes, moves)?;
    move_sources(classes, members, parts.targets(), moves)?;
    parts.settle()
}

/// Moves the sources to the targets of their classes.
fn move_sources(
    classes: &mut Vec<usize>,
    members: &mut Vec<Vec<usize>>,
    targets: &[usize],
    moves: &[(u32, usize)],
) -> Result<(), AllocError>
    requires { AreListed classes.old.items members.old.items }
    ensures listed { OnOk result (AreListed classes.new.items members.new.items) }
    ensures moved { OnOk result (AreMoved (target_of targets.now (length members.old.items)) moves.now
        classes.old.items classes.new.items) }
{
    let count = members.len();
    'moves: for &(_, state) in moves {
        if state < classes.len() {
            let class = classes[state];
            let target = target_of(targets, count, class);
            if target != class {
                let list: &mut Vec<usize> = &mut members[target];
                list.push(state)?;
                classes[state] = target;
            }
        }
    }
    Ok(())
}

/// The class to which sources of the class go: its target, where that is a number that keeps its own states, and else the class.
fn target_of(targets: &[usize], count: usize, class: usize) -> usize
    ensures { result ≡ target_of targets.now count class }
{
    let target = class_of(targets, class);
    if target < count && class_of(targets, target) == target {
        target
    } else {
        class
    }
}
