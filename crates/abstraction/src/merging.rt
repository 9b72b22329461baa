//! The automaton whose states of one class are merged (Bouajjani, Habermehl and Vojnar, CAV 2004): a nondeterministic automaton over the
//! classes, made canonical. The former takes time linear in the states and edges, on average; the latter may have exponentially many states
//! more.

ghost use Rattle.std.specs.Prelude.{◌≡◌, IfOk, length};
ghost use Rattle.safety_problem.specs.Task.{IsAutomatonOf};
ghost use Rattle.abstraction.specs.KnownClasses.{AreClassesBefore, IsMergedBy};
ghost use Rattle.abstraction.specs.Merging.{IsOver, AreClasses, HaveEqualClasses, IsMerged};

use crate::abstractions::{Abstraction, Refinable};
use crate::class_automaton::class_automaton;
use crate::class_numbers::are_single;
use minimise::{Canon, canonical_nfa, known_canonical};
use std::alloc::{AllocError, Global};

/// The canonical automaton of `a` with the states of one class merged. There is one class for each state. Where each state is alone in its
/// class, this is `a`.
pub fn merge(alloc: Global, a: &Canon, classes: &[usize]) -> Result<Canon, AllocError>
    requires { length classes.now ≡ length a.now.states }
    ensures { IfOk result (IsAutomatonOf a.now.letters (IsMerged (HaveEqualClasses classes.now) a.now)) }
{
    known_canonical(a);
    if are_single(classes) {
        return a.copy(alloc);
    }
    let automaton = class_automaton(alloc, a.as_dfa(), classes)?;
    canonical_nfa(alloc, &automaton)
}

/// An automaton with states merged.
#[derive(Drop)]
pub struct Merged {
    /// The class of each state.
    pub classes: Vec<usize>,
    /// The canonical automaton with the states of one class merged.
    pub automaton: Canon,
}

/// The canonical automaton of `a` with the states merged that the abstraction relates, and their classes. `a` has the letters of the key's
/// automata.
pub fn merge_related<A: Abstraction>(
    alloc: Global,
    abstraction: &A,
    a: &Canon,
) -> Result<Merged, AllocError>
    requires { IsOver a.now.letters (A.key abstraction.now) }
    ensures { IfOk result (λ merged. IsMergedBy (A.related (A.key abstraction.now) a.now) a.now merged.classes.items merged.automaton) }
{
    known_canonical(a);
    let classes = abstraction.classes(alloc, a)?;
    let automaton = merge(alloc, a, &classes)?;
    Ok(Merged { classes, automaton })
}

/// The same, where the classes before the last refinement are known, and the automaton that was merged by them. Where no class was split,
/// it is copied.
pub fn merge_after<A: Refinable>(
    alloc: Global,
    abstraction: &A,
    a: &Canon,
    before: &[usize],
    merged: &Canon,
) -> Result<Merged, AllocError>
    requires letters { IsOver a.now.letters (A.Abstraction.key abstraction.now) }
    requires before { AreClassesBefore A.Abstraction.related A.next (A.Abstraction.key abstraction.now) a.now before.now }
    requires merged { IsAutomatonOf a.now.letters (IsMerged (HaveEqualClasses before.now) a.now) merged.now }
    ensures { IfOk result (λ merged. IsMergedBy (A.Abstraction.related (A.Abstraction.key abstraction.now) a.now) a.now merged.classes.items
        merged.automaton) }
{
    known_canonical(a);
    let classes = classes_after(alloc, abstraction, a, before)?;
    let automaton = merge_unless_same(alloc, a, &classes, before, merged)?;
    Ok(Merged { classes, automaton })
}

/// The classes of the states, where the classes before the last refinement are known: these where each state is alone in its own.
fn classes_after<A: Refinable>(
    alloc: Global,
    abstraction: &A,
    a: &Canon,
    before: &[usize],
) -> Result<Vec<usize>, AllocError>
    requires letters { IsOver a.now.letters (A.Abstraction.key abstraction.now) }
    requires before { AreClassesBefore A.Abstraction.related A.next (A.Abstraction.key abstraction.now) a.now before.now }
    ensures { IfOk result (λ classes. AreClasses (A.Abstraction.related (A.Abstraction.key abstraction.now) a.now)
        (length a.now.states) classes.items) }
{
    if are_single(before) {
        return Vec::from_slice(alloc, before);
    }
    abstraction.classes_after(alloc, a, before)
}

/// The canonical automaton of `a` with the states of one class merged, where the one with those of other classes is known.
fn merge_unless_same(
    alloc: Global,
    a: &Canon,
    classes: &[usize],
    before: &[usize],
    merged: &Canon,
) -> Result<Canon, AllocError>
    requires count { length classes.now ≡ length a.now.states }
    requires merged { IsAutomatonOf a.now.letters (IsMerged (HaveEqualClasses before.now) a.now) merged.now }
    ensures { IfOk result (IsAutomatonOf a.now.letters (IsMerged (HaveEqualClasses classes.now) a.now)) }
{
    if classes == before {
        return merged.copy(alloc);
    }
    merge(alloc, a, classes)
}
