//! What a round of splitting compares states by, in lists that are used again for one state after another: the class, whether the state
//! accepts, and the classes that letters lead to. To take one up, to hash it and to compare two costs time linear in the edges.

ghost use Rattle.std.specs.Prelude.{◌≡◌, ◌↔◌, ◌<◌, IsTrue, OnOk, length};
ghost use Rattle.std.specs.List.{filter_map};
ghost use Rattle.word_automata.specs.Path.{edges_of};
ghost use Rattle.minimise.specs.Signatures.{mixed, digest};
ghost use Rattle.minimise.specs.Refinement.{live_edge, signature_of, no_word};

use std::alloc::{AllocError, Global};
use std::marker::Model;
use word_automata::Dfa;

/// The class of a state, whether it accepts, and for each letter that leads to a class other than 0 that class.
#[derive(Drop)]
pub struct Signature {
    class: usize,
    accepting: bool,
    edges: Vec<(u32, usize)>,
}

impl Model for Signature {
    ghost use Rattle.minimise.specs.Signatures.{Signature as Parts};

    ghost Value = { Parts };

    ghost view = { λ s. record { class = s.class; accepting = s.accepting; edges = s.edges.items } };
}

impl Signature {
    /// The signature of no word. It takes no memory.
    pub fn of_no_word(alloc: Global) -> Signature
        ensures { result ≡ no_word }
    {
        Signature {
            class: 0,
            accepting: false,
            edges: Vec::new(alloc),
        }
    }

    /// Takes up the signature of the state by the classes.
    pub fn take(
        &mut self,
        automaton: &Dfa,
        classes: &[usize],
        state: usize,
    ) -> Result<(), AllocError>
        requires count { length classes.now ≡ length automaton.now.states }
        requires state { state < length automaton.now.states }
        ensures { OnOk result (self.new ≡ signature_of automaton.now classes.now state) }
    {
        self.class = classes[state];
        self.accepting = automaton.accepting(state);
        put_live_edges(&mut self.edges, automaton, classes, state)?;
        Ok(())
    }

    /// Whether it is the signature of a state from which no word is accepted.
    pub fn is_of_no_word(&self) -> bool
        ensures { IsTrue result ↔ (self.now ≡ no_word) }
    {
        self.class == 0 && !self.accepting && self.edges.is_empty()
    }

    /// Whether both are the same.
    pub fn is_same(&self, other: &Signature) -> bool
        ensures { IsTrue result → self.now ≡ other.now }
    {
        self.class == other.class
            && self.accepting == other.accepting
            && self.edges.as_slice() == other.edges.as_slice()
    }

    /// A number that few other signatures have.
    pub fn digest(&self) -> usize
        ensures { result ≡ digest self.now }
    {
        let edges = self.edges.as_slice();
        let mut value = mixed(self.class, if self.accepting { 1 } else { 0 });
        'edges: for &(letter, class) in edges {
            let with_letter = mixed(value, letter as usize);
            value = mixed(with_letter, class);
        }
        value
    }
}

/// The value of a polynomial with one part more.
fn mixed(value: usize, part: usize) -> usize
    ensures { result ≡ mixed value part }
{
    value
        .wrapping_mul(11_400_714_819_323_198_485)
        .wrapping_add(part)
}

/// Puts the letters of the state that lead to classes other than 0, each with the class, in the place of what the list has.
fn put_live_edges(
    live: &mut Vec<(u32, usize)>,
    automaton: &Dfa,
    classes: &[usize],
    state: usize,
) -> Result<(), AllocError>
    requires count { length classes.now ≡ length automaton.now.states }
    requires state { state < length automaton.now.states }
    ensures { OnOk result (live.new.items ≡ filter_map (live_edge classes.now) (edges_of automaton.now.states state)) }
{
    live.clear();
    let edges = automaton.edges_from(state);
    'edges: for &(letter, to) in edges {
        if classes[to] != 0 {
            live.push((letter, classes[to]))?;
        }
    }
    Ok(())
}
