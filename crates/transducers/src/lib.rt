//! Finite transducers over words of letter numbers (Elgot and Mezei, 1965): relations of words that are told by paths of labelled edges.
//! A state is its flag and a list of its edges, which are read in constant time.
#![tactic(auto)]

mod builder;
mod combination;
mod copies;
mod identities;
mod joining;
mod search;

ghost use Rattle.std.specs.Prelude.{◌≡◌, ◌<◌, ◌^◌, IfOk, length};
ghost use Rattle.word_automata.specs.Path.{edges_of, is_accepting};
ghost use Rattle.transducers.specs.Combination.{exchange};

pub use builder::TransducerBuilder;
pub use combination::{either, inverse};
pub use copies::{copy_any, copy_edges, copy_one};
pub use identities::identity;
pub use joining::join_sections;
pub use search::relates;
use std::alloc::AllocError;
use std::marker::Model;

/// What an edge reads and what it writes: a letter each, or nothing.
#[derive(Clone, Copy, PartialEq, Eq)]
pub struct Label {
    pub read: Option<u32>,
    pub write: Option<u32>,
}

impl Label {
    /// The label that reads the letter `read` and writes the letter `write`.
    pub fn exchange(read: u32, write: u32) -> Label
        ensures { result ≡ exchange read write }
    {
        Label {
            read: Some(read),
            write: Some(write),
        }
    }
}

/// A state: whether it accepts, and its edges, each a label and the number of the target state.
#[derive(Clone, Drop)]
pub struct State {
    accepting: bool,
    edges: Vec<(Label, usize)>,
}

impl Model for State {
    ghost use Rattle.word_automata.specs.Path.{Node};
    ghost use Rattle.transducers.specs.declared.Label.{Label};

    ghost Value = { Node Label };

    ghost view = { λ s. record { accepting = s.accepting; edges = s.edges.items } };
}

impl State {
    /// The state with these edges. It takes no memory.
    pub fn new(accepting: bool, edges: Vec<(Label, usize)>) -> State
        ensures { result ≡ record { accepting = accepting; edges = edges.items } }
    {
        State { accepting, edges }
    }
}

/// A transducer: a number of letters, start states, and states with their edges. The letters and states that it names
/// are in range. It relates the word that a path from a start state to an accepting state reads to the word that this path
/// writes.
#[derive(Clone, Drop)]
pub struct Transducer {
    letters: u32,
    starts: Vec<usize>,
    states: Vec<State>,
}

impl Model for Transducer {
    ghost use Rattle.transducers.specs.Transducer.{Transducer, IsValid};

    ghost Value = { Transducer };

    ghost view = { λ t. record { letters = t.letters; starts = t.starts.items; states = t.states.items } };

    ghost invariant = { λ t. IsValid (record { letters = t.letters; starts = t.starts.items; states = t.states.items }) };
}

impl Transducer {
    ghost use Rattle.transducers.specs.Transducer.{IsValid};

    /// The transducer with these states. It takes no memory.
    pub fn from_states(letters: u32, starts: Vec<usize>, states: Vec<State>) -> Transducer
        requires { IsValid (record { letters = letters; starts = starts.items; states = states.items }) }
        ensures { result ≡ record { letters = letters; starts = starts.items; states = states.items } }
    {
        Transducer {
            letters,
            starts,
            states,
        }
    }

    /// The number of letters.
    pub fn letters(&self) -> u32
        ensures letters { result ≡ self.now.letters }
        ensures valid { IsValid self.now }
    {
        self.letters
    }

    /// The number of states.
    pub fn states(&self) -> usize
        ensures states { result ≡ length self.now.states }
        ensures small { result < 2 ^ 63 }
        ensures valid { IsValid self.now }
    {
        self.states.len()
    }

    /// The start states, in the order in which they were added.
    pub fn starts(&self) -> &[usize]
        ensures { result.now ≡ self.now.starts }
    {
        self.starts.as_slice()
    }

    /// Whether the state is there and accepts.
    pub fn is_accepting(&self, state: usize) -> bool
        ensures { result ≡ is_accepting self.now.states state }
    {
        match self.states.get(state) {
            Some(found) => found.accepting,
            None => false,
        }
    }

    /// The edges that leave the state, each a label and a target, in the order in which they were added;
    /// none where the state is not there.
    pub fn edges(&self, state: usize) -> &[(Label, usize)]
        ensures { result.now ≡ edges_of self.now.states state }
    {
        match self.states.get(state) {
            Some(found) => found.edges.as_slice(),
            None => &[],
        }
    }

    /// A copy of the transducer, in time linear in its states and edges. `AllocError` where memory runs out.
    pub fn copy(&self) -> Result<Transducer, AllocError>
        ensures { IfOk result (λ t. t ≡ self.now) }
    {
        self.clone()
    }
}

/// Asks for a type that threads may share and that may be moved between them.
fn is_shared<T: Send + Sync>() {}

/// Threads may share transducers and their parts.
pub fn transducers_are_shared() {
    is_shared::<Transducer>();
    is_shared::<State>();
    is_shared::<Label>();
}
