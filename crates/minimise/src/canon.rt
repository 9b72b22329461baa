//! Canonical automata: the least ones of their languages, numbered breadth first (A. Nerode, 1958; J. Hopcroft, 1971, for the classes
//! of states). Making one costs time linear in the edges times the logarithm of the states; comparing two costs their size.

ghost use Rattle.std.specs.Prelude.{◌≡◌, ◌↔◌, ◌<◌, ◌^◌, List, ℕ, IsTrue, IfOk, length};
ghost use Rattle.word_automata.specs.Automaton.{accepts};
ghost use Rattle.word_automata.specs.Nondeterministic.{Accepts};
ghost use Rattle.minimise.specs.Canonical.{IsCanonical, SameLanguage};

use crate::breadth_first::explore_classes;
use crate::refinement::classes;
use determinise::determinise;
use std::alloc::{AllocError, Global};
use std::marker::Model;
use word_automata::{Dfa, Nfa};

/// A canonical automaton: each state is reached and reaches an accepting state, no two accept the same words, and states are
/// numbered breadth first, letters in increasing order. The empty language has no state.
#[derive(Drop)]
pub struct Canon {
    dfa: Dfa,
}

impl Model for Canon {
    ghost use Rattle.word_automata.specs.Automaton.{Automaton};
    ghost use Rattle.minimise.specs.Canonical.{IsCanonical};

    ghost Value = { Automaton };

    ghost view = { λ c. c.dfa };

    ghost invariant = { λ c. IsCanonical c.dfa };
}

impl Canon {
    /// The automaton.
    pub fn as_dfa(&self) -> &Dfa
        ensures same { result.now ≡ self.now }
        ensures canonical { IsCanonical self.now }
    {
        &self.dfa
    }

    /// The number of states.
    pub fn size(&self) -> usize
        ensures count { result ≡ length self.now.states }
        ensures small { length self.now.states < 2 ^ 63 }
        ensures canonical { IsCanonical self.now }
    {
        self.dfa.states()
    }

    /// Whether the automaton accepts the word. It takes no memory.
    pub fn accepts(&self, word: &[u32]) -> bool
        ensures { result ≡ accepts self.now word.now }
    {
        self.dfa.accepts(word)
    }

    /// An equal automaton.
    pub fn copy(&self, alloc: Global) -> Result<Canon, AllocError>
        ensures { IfOk result (λ copy. copy ≡ self.now) }
    {
        Ok(Canon {
            dfa: self.dfa.copy(alloc)?,
        })
    }
}

/// Tells of an automaton that it is canonical, as each is. It costs nothing.
pub fn known_canonical(automaton: &Canon)
    ensures { IsCanonical automaton.now }
{
    let _states = automaton.size();
}

/// The canonical automaton of the same language. It takes time linear in the edges times the logarithm of the states, up to sorting by
/// letters, on average over hashing.
pub fn canonical(alloc: Global, automaton: &Dfa) -> Result<Canon, AllocError>
    ensures language { IfOk result (SameLanguage automaton.now) }
    ensures letters { IfOk result (λ canon. canon.letters ≡ automaton.now.letters) }
    ensures canonical { IfOk result IsCanonical }
{
    let classes = classes(alloc, automaton)?;
    let dfa = explore_classes(alloc, automaton, &classes)?;
    Ok(Canon { dfa })
}

/// The canonical automaton of the language of a nondeterministic automaton.
pub fn canonical_nfa(alloc: Global, automaton: &Nfa) -> Result<Canon, AllocError>
    ensures language { IfOk result (λ canon. (w : List ℕ) → IsTrue (accepts canon w) ↔ Accepts automaton.now w) }
    ensures letters { IfOk result (λ canon. canon.letters ≡ automaton.now.letters) }
    ensures canonical { IfOk result IsCanonical }
{
    let dfa = determinise(alloc, automaton)?;
    canonical(alloc, &dfa)
}

/// Whether the two automata are equal as data, which they are exactly where their numbers of letters and their languages are.
/// It takes no memory.
pub fn same(a: &Canon, b: &Canon) -> bool
    ensures equal { IsTrue result ↔ (a.now ≡ b.now) }
    ensures language { IsTrue result ↔ ((a.now.letters ≡ b.now.letters) × SameLanguage a.now b.now) }
{
    is_equal(&a.dfa, &b.dfa)
}

/// Whether the two automata are equal as data.
fn is_equal(a: &Dfa, b: &Dfa) -> bool
    ensures { IsTrue result ↔ (a.now ≡ b.now) }
{
    if a.letters() != b.letters() || a.states() != b.states() {
        return false;
    }
    'states: for state in 0..a.states() {
        if a.accepting(state) != b.accepting(state) || a.edges_from(state) != b.edges_from(state) {
            return false;
        }
    }
    true
}
