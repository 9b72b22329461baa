//! A predicate automaton with the edges into each of its states, which every walk backward from its accepting states asks for. They are
//! listed once, in time and memory linear in its states and edges.

ghost use Rattle.std.specs.Prelude.{◌≡◌, IfOk, length};
ghost use Rattle.predicate_abstraction.specs.private.SharedWords.{AreEdgesByTarget};

use crate::shared_words::edges_into;
use minimise::Canon;
use std::alloc::{AllocError, Global};
use std::marker::Model;
use word_automata::Dfa;

/// A predicate automaton.
#[derive(Drop)]
pub struct Predicate {
    automaton: Canon,
    into: Vec<Vec<(u32, usize)>>,
}

impl Model for Predicate {
    ghost use Rattle.std.specs.Prelude.{length};
    ghost use Rattle.word_automata.specs.Automaton.{Automaton};
    ghost use Rattle.predicate_abstraction.specs.private.SharedWords.{AreEdgesByTarget};

    ghost Value = { Automaton };

    ghost view = { λ p. p.automaton };

    ghost invariant = { λ p. AreEdgesByTarget p.automaton p.into.items (length p.automaton.states) };
}

impl Predicate {
    /// The predicate automaton that is the same as this one.
    pub fn new(alloc: Global, automaton: &Canon) -> Result<Predicate, AllocError>
        ensures { IfOk result (λ made. made ≡ automaton.now) }
    {
        let into = edges_into(alloc, automaton.as_dfa())?;
        Ok(Predicate {
            automaton: automaton.copy(alloc)?,
            into,
        })
    }

    /// The automaton.
    pub fn as_dfa(&self) -> &Dfa
        ensures { result.now ≡ self.now }
    {
        self.automaton.as_dfa()
    }

    /// For each state a list of the edges into it, each its letter with its source.
    pub fn edges_into(&self) -> &[Vec<(u32, usize)>]
        ensures { AreEdgesByTarget self.now result.now (length self.now.states) }
    {
        &self.into
    }

    /// The number of states.
    pub fn size(&self) -> usize
        ensures { result ≡ length self.now.states }
    {
        self.automaton.size()
    }
}
