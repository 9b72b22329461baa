//! Numbers of classes: each class has that of its first state, which a table keeps by the class, or a hash map where classes are great
//! numbers. They take time and memory linear in the states, on average.

ghost use Rattle.std.specs.Prelude.{◌≡◌, ◌⊎◌, ◌<◌, ◌≤◌, ◌+◌, ◌^◌, ℕ, All, IsTrue, IfOk, nat_eq, length, slice_index};
ghost use Rattle.std.specs.HashMap.{get};
ghost use Rattle.abstraction.specs.FirstStates.{AreFirsts};
ghost use Rattle.abstraction.specs.ClassAutomata.{IsKnownFirst, IsNewFirst, known_at};

use std::alloc::{AllocError, Global};
use std::collections::HashMap;

/// A table is kept where it has at most so many places for each state.
const PLACES_OF_A_STATE: usize = 8;

/// For each state the first state of its class. `classes` has the class of each state, which may be any number. `AllocError` where memory
/// runs out.
pub fn first_states(alloc: Global, classes: &[usize]) -> Result<Vec<usize>, AllocError>
    ensures { IfOk result (λ firsts. AreFirsts classes.now firsts.items) }
{
    let greatest = greatest(classes);
    if greatest / PLACES_OF_A_STATE < classes.len() && greatest < usize::MAX {
        return first_states_by_table(alloc, classes, greatest + 1);
    }
    first_states_by_map(alloc, classes)
}

/// Whether each state has its own number as that of its class.
pub fn are_single(classes: &[usize]) -> bool
    ensures { IsTrue result → (p : ℕ) → p < length classes.now → slice_index classes.now p ≡ p }
{
    'states: for state in 0..classes.len() {
        if classes[state] != state {
            return false;
        }
    }
    true
}

/// The greatest class, or 0 where there is none.
fn greatest(classes: &[usize]) -> usize
    ensures { All (λ class. class ≤ result) classes.now }
{
    let mut greatest = 0;
    'classes: for class in classes {
        if *class > greatest {
            greatest = *class;
        }
    }
    greatest
}

/// The first states, by a table with so many places.
fn first_states_by_table(
    alloc: Global,
    classes: &[usize],
    places: usize,
) -> Result<Vec<usize>, AllocError>
    requires { All (λ class. class < places) classes.now }
    ensures { IfOk result (λ firsts. AreFirsts classes.now firsts.items) }
{
    let mut firsts = Vec::with_capacity(alloc, classes.len())?;
    let mut known = vec![in alloc; 0; places]?;
    'states: for state in 0..classes.len() {
        firsts.push(first_in(&mut known, classes[state], state))?;
    }
    Ok(firsts)
}

/// The first state of the class, which is this one where none is known. The table has one more than it, or 0.
fn first_in(known: &mut Vec<usize>, class: usize, state: usize) -> usize
    requires class { class < length known.old.items }
    requires state { state + 1 < 2 ^ 64 }
    ensures count { length known.new.items ≡ length known.old.items }
    ensures first { IsKnownFirst (known_at known.old.items) (known_at known.new.items) class result
        ⊎ IsNewFirst (known_at known.old.items) (known_at known.new.items) class state result }
{
    let first = known[class];
    if first > 0 {
        return first - 1;
    }
    known[class] = state + 1;
    state
}

/// The first states, by a hash map.
fn first_states_by_map(alloc: Global, classes: &[usize]) -> Result<Vec<usize>, AllocError>
    ensures { IfOk result (λ firsts. AreFirsts classes.now firsts.items) }
{
    let mut firsts = Vec::with_capacity(alloc, classes.len())?;
    let mut known = HashMap::new(alloc);
    'states: for state in 0..classes.len() {
        firsts.push(first_of(&mut known, classes[state], state)?)?;
    }
    Ok(firsts)
}

/// The first state of the class, which is this one where none is known.
fn first_of(
    known: &mut HashMap<usize, usize>,
    class: usize,
    state: usize,
) -> Result<usize, AllocError>
    ensures { IfOk result (λ first. IsKnownFirst (get nat_eq known.old) (get nat_eq known.new) class first
        ⊎ IsNewFirst (get nat_eq known.old) (get nat_eq known.new) class state first) }
{
    if let Some(first) = known.get(&class) {
        return Ok(*first);
    }
    known.insert(class, state)?;
    Ok(state)
}
