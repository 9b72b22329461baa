//! The nondeterministic automaton over the classes of states. A class has the number of its first state, and the edges that its
//! states have, each once. It takes time linear in the edges, on average.

ghost use Rattle.std.specs.Prelude.{◌≡◌, ◌↔◌, ◌<◌, ◌+◌, ℕ, List, [], Some, IfOk, OnOk, length};
ghost use Rattle.word_automata.specs.Nondeterministic.{Accepts, IsMoveInRange, empty_nondeterministic};
ghost use Rattle.abstraction.specs.Merging.{HaveEqualClasses, IsMerged};
ghost use Rattle.abstraction.specs.ClassAutomata.{AreTargetsOf, AreAcceptingFlags, HasClassMoves, HasAllClassMoves, AddsMoveOnce};

use crate::class_numbers::first_states;
use exploration::FoundStates;
use std::alloc::{AllocError, Global};
use word_automata::{Dfa, Nfa, NfaBuilder};

/// An edge that leads from class to class.
#[derive(Clone, Copy, PartialEq, Eq)]
pub(crate) struct ClassEdge {
    pub(crate) from: usize,
    pub(crate) letter: u32,
    pub(crate) to: usize,
}

/// The automaton over the classes of the states of `a`. There is one class for each state.
pub fn class_automaton(alloc: Global, a: &Dfa, classes: &[usize]) -> Result<Nfa, AllocError>
    requires { length classes.now ≡ length a.now.states }
    ensures language { IfOk result (λ nfa. (w : List ℕ) → Accepts nfa w ↔ IsMerged (HaveEqualClasses classes.now) a.now w) }
    ensures letters { IfOk result (λ nfa. nfa.letters ≡ a.now.letters) }
{
    let firsts = first_states(alloc, classes)?;
    automaton_of_classes(alloc, a, &firsts)
}

/// The automaton over the classes that have these numbers.
fn automaton_of_classes(alloc: Global, a: &Dfa, firsts: &[usize]) -> Result<Nfa, AllocError>
    requires { AreTargetsOf a.now firsts.now }
    ensures { IfOk result (HasAllClassMoves a.now firsts.now) }
{
    let mut builder = class_states(alloc, a, firsts)?;
    add_all_edges(alloc, a, firsts, &mut builder)?;
    Ok(builder.finish())
}

/// The classes without their edges. The first one is the start.
fn class_states(alloc: Global, a: &Dfa, firsts: &[usize]) -> Result<NfaBuilder, AllocError>
    requires { AreTargetsOf a.now firsts.now }
    ensures { IfOk result (λ builder. HasClassMoves a.now firsts.now [] builder 0 0) }
{
    let accepting = accepting_classes(alloc, a, firsts)?;
    let mut builder = NfaBuilder::new(alloc, a.letters());
    add_classes(a, firsts, &accepting, &mut builder)?;
    Ok(builder)
}

/// Adds a state for each number, and makes the first class the start.
fn add_classes(
    a: &Dfa,
    firsts: &[usize],
    accepting: &[bool],
    builder: &mut NfaBuilder,
) -> Result<(), AllocError>
    requires firsts { AreTargetsOf a.now firsts.now }
    requires accepting { AreAcceptingFlags a.now firsts.now accepting.now }
    requires empty { builder.old ≡ empty_nondeterministic a.now.letters }
    ensures { OnOk result (HasClassMoves a.now firsts.now [] builder.new 0 0) }
{
    'classes: for accepts in accepting {
        builder.state(*accepts)?;
    }
    if a.states() == 0 {
        return Ok(());
    }
    builder.start(firsts[0])
}

/// For each number whether it is one of a class of which some state accepts.
fn accepting_classes(alloc: Global, a: &Dfa, firsts: &[usize]) -> Result<Vec<bool>, AllocError>
    requires { AreTargetsOf a.now firsts.now }
    ensures { IfOk result (λ accepting. AreAcceptingFlags a.now firsts.now accepting.items) }
{
    let mut accepting = vec![in alloc; false; a.states()]?;
    'states: for state in 0..a.states() {
        if a.accepting(state) {
            accepting[firsts[state]] = true;
        }
    }
    Ok(accepting)
}

/// Adds the edges of all states to those of their classes.
fn add_all_edges(
    alloc: Global,
    a: &Dfa,
    firsts: &[usize],
    builder: &mut NfaBuilder,
) -> Result<(), AllocError>
    requires firsts { AreTargetsOf a.now firsts.now }
    requires before { HasClassMoves a.now firsts.now [] builder.old 0 0 }
    ensures { OnOk result (HasAllClassMoves a.now firsts.now builder.new) }
{
    let mut seen = FoundStates::new(alloc, codes(a))?;
    'states: for state in 0..a.states() {
        add_edges(a, firsts, &mut seen, builder, state)?;
    }
    Ok(())
}

/// Adds the edges of the state to those of its class.
fn add_edges(
    a: &Dfa,
    firsts: &[usize],
    seen: &mut FoundStates<ClassEdge>,
    builder: &mut NfaBuilder,
    state: usize,
) -> Result<(), AllocError>
    requires within { state < length a.now.states }
    requires firsts { AreTargetsOf a.now firsts.now }
    requires before { HasClassMoves a.now firsts.now seen.old.states.items builder.old state 0 }
    ensures { OnOk result (HasClassMoves a.now firsts.now seen.new.states.items builder.new (state + 1) 0) }
{
    let from = firsts[state];
    'edges: for &(letter, to) in a.edges_from(state) {
        let step = ClassEdge {
            from,
            letter,
            to: firsts[to],
        };
        add_edge(seen, code(a, step), builder, step)?;
    }
    Ok(())
}

/// A number above the codes of all edges from class to class.
fn codes(a: &Dfa) -> usize {
    let targets = a.states().saturating_mul(a.states());
    targets.saturating_mul(a.letters() as usize)
}

/// The code of the edge: no other edge has it.
fn code(a: &Dfa, step: ClassEdge) -> usize {
    let target = step.from.wrapping_mul(a.states()).wrapping_add(step.to);
    target
        .wrapping_mul(a.letters() as usize)
        .wrapping_add(step.letter as usize)
}

/// Adds the edge, unless it was seen before. It is looked up by its code.
fn add_edge(
    seen: &mut FoundStates<ClassEdge>,
    code: usize,
    builder: &mut NfaBuilder,
    step: ClassEdge,
) -> Result<(), AllocError>
    requires { IsMoveInRange builder.old step.from (Some step.letter) step.to }
    ensures { OnOk result (AddsMoveOnce seen.old.states.items seen.new.states.items builder.old builder.new step) }
{
    if let Some(_known) = seen.look_up(code, &step)? {
        return Ok(());
    }
    seen.push(step)?;
    builder.edge(step.from, Some(step.letter), step.to)
}
