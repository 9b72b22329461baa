//! Building a transducer state by state and edge by edge. The builder keeps a list of edges for each state.
//! Each call takes constant time for each edge that it adds, on average.

ghost use Rattle.std.specs.Prelude.{◌≡◌, ◌<◌, ◌∷◌, [], All, IfSome, IfOk, OnOk, OnErr, length};
ghost use Rattle.transducers.specs.Builder.{without_states, with_state, with_start, with_edges};

use crate::{Label, State, Transducer};
use std::alloc::{AllocError, Global};
use std::marker::Model;

/// A transducer that is being built. A call that runs out of memory leaves it as it was.
#[derive(Drop)]
pub struct TransducerBuilder {
    alloc: Global,
    letters: u32,
    starts: Vec<usize>,
    states: Vec<State>,
}

impl Model for TransducerBuilder {
    ghost use Rattle.transducers.specs.Transducer.{Transducer, IsValid};

    ghost Value = { Transducer };

    ghost view = { λ t. record { letters = t.letters; starts = t.starts.items; states = t.states.items } };

    ghost invariant = { λ t. IsValid (record { letters = t.letters; starts = t.starts.items; states = t.states.items }) };
}

impl TransducerBuilder {
    ghost use Rattle.transducers.specs.Transducer.{IsEdge};

    /// A builder for `letters` letters, with no state yet.
    pub fn new(alloc: Global, letters: u32) -> TransducerBuilder
        ensures { result ≡ without_states letters }
    {
        TransducerBuilder {
            alloc,
            letters,
            starts: Vec::new(alloc),
            states: Vec::new(alloc),
        }
    }

    /// Adds a state without edges, and gives its number, which is the number of states before.
    pub fn state(&mut self, accepting: bool) -> Result<usize, AllocError>
        ensures number { IfOk result (λ q. q ≡ length self.old.states) }
        ensures added { OnOk result (self.new ≡ with_state self.old accepting) }
        ensures err { OnErr result (self.new ≡ self.old) }
    {
        let number = self.states.len();
        let edges = Vec::new(self.alloc);
        self.states.push(State { accepting, edges })?;
        Ok(number)
    }

    /// Makes the state a start state.
    pub fn start(&mut self, state: usize) -> Result<(), AllocError>
        requires { state < length self.old.states }
        ensures added { OnOk result (self.new ≡ with_start self.old state) }
        ensures err { OnErr result (self.new ≡ self.old) }
    {
        self.starts.push(state)?;
        Ok(())
    }

    /// Adds an edge from the state `from` to the state `to`, which reads and writes the given letters.
    pub fn edge(
        &mut self,
        from: usize,
        read: Option<u32>,
        write: Option<u32>,
        to: usize,
    ) -> Result<(), AllocError>
        requires from_in_range { from < length self.old.states }
        requires read_in_range { IfSome read (λ a. a < self.old.letters) }
        requires write_in_range { IfSome write (λ a. a < self.old.letters) }
        requires to_in_range { to < length self.old.states }
        ensures added { OnOk result (self.new ≡ with_edges self.old from ((record { read = read; write = write }, to) ∷ [])) }
        ensures err { OnErr result (self.new ≡ self.old) }
    {
        let state = &mut self.states[from];
        state.edges.push((Label { read, write }, to))?;
        Ok(())
    }

    /// Adds several edges from the state `from`, each a label and a target, in their order. Either all are added or none.
    pub fn edges(&mut self, from: usize, edges: &[(Label, usize)]) -> Result<(), AllocError>
        requires from_in_range { from < length self.old.states }
        requires edges_in_range { All (IsEdge self.old.letters (length self.old.states)) edges.now }
        ensures added { OnOk result (self.new ≡ with_edges self.old from edges.now) }
        ensures err { OnErr result (self.new ≡ self.old) }
    {
        let state = &mut self.states[from];
        state.edges.extend_from_slice(edges)?;
        Ok(())
    }

    /// The transducer that was built.
    pub fn finish(self) -> Transducer
        ensures { result ≡ self }
    {
        let TransducerBuilder {
            alloc: _,
            letters,
            starts,
            states,
        } = self;
        Transducer {
            letters,
            starts,
            states,
        }
    }
}
