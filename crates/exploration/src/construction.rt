//! The construction of an automaton from a transition system, breadth first: each state that is found gets the next number, and its
//! successors are looked up by their hashes. It costs time linear in the edges that are reached, on average.

ghost use Rattle.std.specs.Prelude.{◌≡◌, ◌↔◌, ◌<◌, ◌≤◌, ◌+◌, ◌^◌, ℕ, List, [], length, IsTrue, IfOk, OnOk};
ghost use Rattle.word_automata.specs.Automaton.{accepts, IsValid};
ghost use Rattle.word_automata.specs.Building.{empty_automaton};
ghost use Rattle.exploration.specs.DeterministicSystem.{accepts_by};
ghost use Rattle.exploration.specs.Numbering.{IsBreadthFirst, StandsFor, StandsForLanguages};
ghost use Rattle.exploration.specs.private.Worklist.{Explored, Numbers};

use crate::found_states::stands_at;
use crate::language_system::LanguageSystem;
use crate::number_hasher::hash_of;
use crate::state_table::StateTable;
use crate::stepwise::Stepwise;
use crate::transition_system::TransitionSystem;
use std::alloc::{AllocError, Global};
use std::marker::Model;
use word_automata::{Dfa, RowBuilder};

/// The automaton of the states of the system that are reached from its start state, with the same language from each. States are
/// numbered breadth first, letters in increasing order. Each state of the automaton stands for one of the system; that no two of these
/// become one is no clause. The work is linear in the edges that are reached, on average. `AllocError` where memory runs out.
pub fn explore<T: TransitionSystem>(alloc: Global, system: &T) -> Result<Dfa, AllocError>
    ensures language { IfOk result (λ built. (w : List ℕ) → accepts built w ≡ accepts_by (T.system system.now) w) }
    ensures letters { IfOk result (λ built. built.letters ≡ (T.system system.now).letters) }
    ensures valid { IfOk result IsValid }
    ensures breadth_first { IfOk result IsBreadthFirst }
    ensures states { IfOk result (StandsFor (T.system system.now) (T.is_state system.now)) }
{
    Ok(explore_languages(alloc, &Stepwise { system })?)
}

/// The automaton of the states of the system that are reached from its start state, with their languages. States are numbered
/// breadth first, letters in increasing order; that no two of the system's states become one is no clause. The work is linear in the
/// edges that are reached, on average. `AllocError` where memory runs out.
pub fn explore_languages<T: LanguageSystem>(alloc: Global, system: &T) -> Result<Dfa, AllocError>
    ensures language { IfOk result (λ built. (w : List ℕ) → IsTrue (accepts built w) ↔ T.accepted system.now w) }
    ensures letters { IfOk result (λ built. built.letters ≡ T.letter_count system.now) }
    ensures valid { IfOk result IsValid }
    ensures breadth_first { IfOk result IsBreadthFirst }
    ensures states { IfOk result (StandsForLanguages (T.language system.now) (T.is_state system.now)) }
{
    let exploration = Exploration::begin(alloc, system)?;
    Ok(exploration.finish()?)
}

/// An exploration that is under way: the states that were found, and the edges of those that were gone through. It can be stopped at any
/// number of states and gone on with.
///
/// Contracts see the system alone.
#[derive(Drop)]
pub struct Exploration<'a, T: LanguageSystem> {
    alloc: Global,
    system: &'a T,
    found: StateTable<T::State>,
    builder: RowBuilder,
    next: usize,
}

impl<'a, T: LanguageSystem> Model for Exploration<'a, T> {
    ghost use Rattle.std.specs.Prelude.{[]};
    ghost use Rattle.exploration.specs.private.Worklist.{Explored};

    ghost Value = { T };

    ghost view = { λ e. e.system.now };

    ghost invariant = { λ e. Explored (T.letter_count e.system.now) (T.accepted e.system.now) (T.language e.system.now)
        (T.is_state e.system.now) e.found e.builder e.next [] };
}

impl<'a, T: LanguageSystem> Exploration<'a, T> {
    /// The exploration that has found the start state, if there is one. `AllocError` where memory runs out.
    pub fn begin(alloc: Global, system: &'a T) -> Result<Exploration<'a, T>, AllocError>
        ensures { IfOk result (λ begun. begun ≡ system.now) }
    {
        let mut found = StateTable::new(alloc);
        let mut builder = RowBuilder::new(alloc, system.letters());
        begin(alloc, system, &mut found, &mut builder)?;
        Ok(Exploration {
            alloc,
            system,
            found,
            builder,
            next: 0,
        })
    }

    /// The exploration further on: at its end, or where more than `most` states were found. `AllocError` where memory runs out.
    pub fn advance(self, most: usize) -> Result<Exploration<'a, T>, AllocError>
        ensures { IfOk result (λ advanced. advanced ≡ self.entry) }
    {
        let (alloc, system) = (self.alloc, self.system);
        let (mut found, mut builder) = (self.found, self.builder);
        let next = expand_within(alloc, system, &mut found, &mut builder, self.next, most)?;
        Ok(Exploration {
            alloc,
            system,
            found,
            builder,
            next,
        })
    }

    /// The states that were found, the first one first, in constant time. That these are all, and in which order, is no clause.
    pub fn states(&self) -> &[T::State] {
        self.found.as_slice()
    }

    /// Whether all states that were found were gone through, which is no clause.
    pub fn is_done(&self) -> bool {
        self.next >= self.builder.states()
    }

    /// The automaton of the system, after what is left was gone through, as [`explore_languages`] gives it. `AllocError` where memory
    /// runs out.
    pub fn finish(self) -> Result<Dfa, AllocError>
        ensures language { IfOk result (λ built. (w : List ℕ) → IsTrue (accepts built w) ↔ T.accepted self.entry w) }
        ensures letters { IfOk result (λ built. built.letters ≡ T.letter_count self.entry) }
        ensures valid { IfOk result IsValid }
        ensures breadth_first { IfOk result IsBreadthFirst }
        ensures states { IfOk result (StandsForLanguages (T.language self.entry) (T.is_state self.entry)) }
    {
        let (mut found, mut builder) = (self.found, self.builder);
        let most = usize::MAX;
        expand_within(
            self.alloc,
            self.system,
            &mut found,
            &mut builder,
            self.next,
            most,
        )?;
        Ok(builder.finish())
    }
}

/// Goes through states that were found until none is left or there are more than `most`, and tells how many were gone through.
fn expand_within<T: LanguageSystem>(
    alloc: Global,
    system: &T,
    found: &mut StateTable<T::State>,
    builder: &mut RowBuilder,
    from: usize,
    most: usize,
) -> Result<usize, AllocError>
    requires { Explored (T.letter_count system.now) (T.accepted system.now)
        (T.language system.now) (T.is_state system.now) found.old builder.old from [] }
    ensures explored { IfOk result (λ next. Explored (T.letter_count system.now) (T.accepted system.now)
        (T.language system.now) (T.is_state system.now) found.new builder.new next []) }
    ensures end { IfOk result (λ next. most + 1 ≡ 2 ^ 64 → length builder.new.states ≤ next) }
{
    let mut next = from;
    'states: while next < builder.states() && builder.states() <= most {
        expand(alloc, system, found, builder, next)?;
        next += 1;
    }
    Ok(next)
}

/// Finds the start state, if there is one.
fn begin<T: LanguageSystem>(
    alloc: Global,
    system: &T,
    found: &mut StateTable<T::State>,
    builder: &mut RowBuilder,
) -> Result<(), AllocError>
    requires none { found.old ≡ [] }
    requires empty { builder.old ≡ empty_automaton (T.letter_count system.now) }
    ensures { OnOk result (Explored (T.letter_count system.now) (T.accepted system.now)
        (T.language system.now) (T.is_state system.now) found.new builder.new 0 []) }
{
    match system.start(alloc)? {
        Some(start) => {
            number(system, found, builder, start, 0)?;
            Ok(())
        }
        None => Ok(()),
    }
}

/// Adds the edges that leave the state `from`, and the states that they lead to where they are new.
fn expand<T: LanguageSystem>(
    alloc: Global,
    system: &T,
    found: &mut StateTable<T::State>,
    builder: &mut RowBuilder,
    from: usize,
) -> Result<(), AllocError>
    requires there { from < length found.old }
    requires before { Explored (T.letter_count system.now) (T.accepted system.now)
        (T.language system.now) (T.is_state system.now) found.old builder.old from [] }
    ensures { OnOk result (Explored (T.letter_count system.now) (T.accepted system.now)
        (T.language system.now) (T.is_state system.now) found.new builder.new (from + 1) []) }
{
    let successors = system.successors(alloc, &found.as_slice()[from])?;
    let mut last = from;
    'successors: for (letter, state) in successors {
        let to = number(system, found, builder, state, last)?;
        builder.add_edge(from, letter, to)?;
        last = to;
    }
    Ok(())
}

/// The number of the state, which is a new one where it was not found before. The state with the number `last` is looked at first,
/// since neighbouring letters often lead to one state. Only then is the state hashed.
fn number<T: LanguageSystem>(
    system: &T,
    found: &mut StateTable<T::State>,
    builder: &mut RowBuilder,
    state: T::State,
    last: usize,
) -> Result<usize, AllocError>
    requires { T.is_state system.now state }
    ensures { IfOk result (Numbers (T.language system.now) found.old found.new builder.old builder.new state) }
{
    if stands_at(found.as_slice(), last, &state) {
        return Ok(last);
    }
    let hash = hash_of(&state);
    if let Some(known) = found.find(hash, &state) {
        return Ok(known);
    }
    let number = found.as_slice().len();
    let accepting = system.is_accepting(&state);
    found.push(hash, state)?;
    builder.state(accepting)?;
    Ok(number)
}
