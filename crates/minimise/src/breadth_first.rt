//! The automaton of the least states of the classes, numbered breadth first (E. F. Moore, 1959) from that of state 0: each least state
//! that is found gets the next number, which is kept in a table with a place for each state. It takes time linear in the states and in the
//! edges of the least states.

ghost use Rattle.std.specs.Prelude.{◌≡◌, ◌<◌, ◌+◌, ℕ, List, [], length, IfOk, OnOk};
ghost use Rattle.word_automata.specs.Automaton.{accepts, IsValid};
ghost use Rattle.word_automata.specs.Building.{empty_automaton};
ghost use Rattle.exploration.specs.DeterministicSystem.{accepts_by};
ghost use Rattle.exploration.specs.Numbering.{IsBreadthFirst, StandsFor};
ghost use Rattle.minimise.specs.Refinement.{HasLeastStates, quotient, IsLeastState};
ghost use Rattle.minimise.specs.private.BreadthFirst.{ArePlaces, NumbersLeast, AreExplored};

use crate::rows::class_of;
use std::alloc::{AllocError, Global};
use word_automata::{Dfa, RowBuilder};

/// The automaton of the classes but 0, where a letter leads to the class that it leads to from the least state of its class.
pub fn explore_classes(alloc: Global, automaton: &Dfa, classes: &[usize]) -> Result<Dfa, AllocError>
    requires count { length classes.now ≡ length automaton.now.states }
    requires least { HasLeastStates classes.now }
    ensures language { IfOk result (λ built. (w : List ℕ) → accepts built w ≡ accepts_by (quotient automaton.now classes.now) w) }
    ensures letters { IfOk result (λ built. built.letters ≡ automaton.now.letters) }
    ensures valid { IfOk result IsValid }
    ensures breadth_first { IfOk result IsBreadthFirst }
    ensures states { IfOk result (StandsFor (quotient automaton.now classes.now) (IsLeastState automaton.now classes.now)) }
{
    let mut found = Vec::new(alloc);
    let mut numbers = vec![in alloc; 0usize; automaton.states()]?;
    let mut builder = RowBuilder::new(alloc, automaton.letters());
    begin(automaton, classes, &mut found, &mut numbers, &mut builder)?;
    let mut next = 0;
    'states: while next < found.len() {
        expand(
            automaton,
            classes,
            &mut found,
            &mut numbers,
            &mut builder,
            next,
        )?;
        next += 1;
    }
    Ok(builder.finish())
}

/// Finds the least state of the class of state 0, unless that is class 0.
fn begin(
    automaton: &Dfa,
    classes: &[usize],
    found: &mut Vec<usize>,
    numbers: &mut Vec<usize>,
    builder: &mut RowBuilder,
) -> Result<(), AllocError>
    requires count { length classes.now ≡ length automaton.now.states }
    requires least { HasLeastStates classes.now }
    requires valid { IsValid automaton.now }
    requires none { found.old.items ≡ [] }
    requires empty { builder.old ≡ empty_automaton automaton.now.letters }
    requires table { length numbers.old.items ≡ length automaton.now.states }
    requires places { ArePlaces found.old.items numbers.old.items }
    ensures table { OnOk result (length numbers.new.items ≡ length automaton.now.states) }
    ensures places { OnOk result (ArePlaces found.new.items numbers.new.items) }
    ensures explored { OnOk result (AreExplored automaton.now classes.now found.new.items builder.new 0 []) }
{
    let class = class_of(classes, 0);
    if class == 0 {
        return Ok(());
    }
    number(automaton, classes, found, numbers, builder, class - 1)?;
    Ok(())
}

/// Adds the edges that leave the least state with this number, and the least states that they lead to where they are new.
fn expand(
    automaton: &Dfa,
    classes: &[usize],
    found: &mut Vec<usize>,
    numbers: &mut Vec<usize>,
    builder: &mut RowBuilder,
    from: usize,
) -> Result<(), AllocError>
    requires count { length classes.now ≡ length automaton.now.states }
    requires least { HasLeastStates classes.now }
    requires there { from < length found.old.items }
    requires table { length numbers.old.items ≡ length automaton.now.states }
    requires places { ArePlaces found.old.items numbers.old.items }
    requires explored { AreExplored automaton.now classes.now found.old.items builder.old from [] }
    ensures table { OnOk result (length numbers.new.items ≡ length automaton.now.states) }
    ensures places { OnOk result (ArePlaces found.new.items numbers.new.items) }
    ensures explored { OnOk result (AreExplored automaton.now classes.now found.new.items builder.new (from + 1) []) }
{
    let state = found[from];
    let edges = automaton.edges_from(state);
    'edges: for &(letter, to) in edges {
        let class = class_of(classes, to);
        if class == 0 {
            continue;
        }
        let target = number(automaton, classes, found, numbers, builder, class - 1)?;
        builder.add_edge(from, letter, target)?;
    }
    Ok(())
}

/// The number of the least state, which is a new one where it was not found before.
fn number(
    automaton: &Dfa,
    classes: &[usize],
    found: &mut Vec<usize>,
    numbers: &mut Vec<usize>,
    builder: &mut RowBuilder,
    state: usize,
) -> Result<usize, AllocError>
    requires state { state < length automaton.now.states }
    requires table { length numbers.old.items ≡ length automaton.now.states }
    requires places { ArePlaces found.old.items numbers.old.items }
    ensures table { OnOk result (length numbers.new.items ≡ length automaton.now.states) }
    ensures places { OnOk result (ArePlaces found.new.items numbers.new.items) }
    ensures numbers { IfOk result (NumbersLeast automaton.now classes.now found.old.items found.new.items builder.old builder.new state) }
{
    let known = numbers[state];
    if known != 0 {
        return Ok(known - 1);
    }
    let number = found.len();
    builder.state(automaton.accepting(state))?;
    found.push(state)?;
    numbers[state] = number + 1;
    Ok(number)
}
