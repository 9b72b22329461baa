//! Finite automata, deterministic or not (Rabin and Scott, 1959), read as nondeterministic ones: what a walk over the states of either asks
//! of it. Nothing is copied, since edges are handed out as the automaton keeps them and read one by one. Each call takes constant time.

ghost use Rattle.std.specs.Prelude.{◌≡◌, ◌<◌, ℕ, Option, Some, map, length};
ghost use Rattle.word_automata.specs.Path.{edges_of, is_accepting};
ghost use Rattle.word_automata.specs.Nondeterministic.{NondeterministicAutomaton, IsInRange, as_nondeterministic};

use word_automata::{Dfa, Nfa};

/// A finite automaton, deterministic or not.
///
/// Contracts see it as a nondeterministic `automaton`, and an edge as it is kept as its `move_of`: its letter, if it has one, and the
/// state that it leads to.
pub trait FiniteAutomaton {
    type Edge: Copy + Drop;

    ghost automaton: { Self → NondeterministicAutomaton };

    ghost move_of: { Self.Edge → Option ℕ × ℕ };

    /// The number of states.
    fn states(&self) -> usize
        ensures count { result ≡ length (automaton self.now).states }
        ensures in_range { IsInRange (automaton self.now) };

    /// The start states, in their order.
    fn starts(&self) -> &[usize]
        ensures starts { result.now ≡ (automaton self.now).starts }
        ensures in_range { IsInRange (automaton self.now) };

    /// Whether the state accepts.
    fn accepting(&self, state: usize) -> bool
        requires { state < length (automaton self.now).states }
        ensures { result ≡ is_accepting (automaton self.now).states state };

    /// The edges of the state, in their order.
    fn edges_from(&self, state: usize) -> &[Self::Edge]
        requires { state < length (automaton self.now).states }
        ensures { map move_of result.now ≡ edges_of (automaton self.now).states state };

    /// The letter of the edge, if it has one, and the state that it leads to.
    fn read(edge: Self::Edge) -> (Option<u32>, usize)
        ensures { result ≡ move_of edge };
}

impl FiniteAutomaton for Nfa {
    type Edge = (Option<u32>, usize);

    ghost automaton = { λ n. n };

    ghost move_of = { λ e. e };

    fn states(&self) -> usize {
        self.states()
    }

    fn starts(&self) -> &[usize] {
        self.starts()
    }

    fn accepting(&self, state: usize) -> bool {
        self.accepting(state)
    }

    fn edges_from(&self, state: usize) -> &[(Option<u32>, usize)] {
        self.edges_from(state)
    }

    fn read(edge: (Option<u32>, usize)) -> (Option<u32>, usize) {
        edge
    }
}

impl FiniteAutomaton for Dfa {
    type Edge = (u32, usize);

    ghost automaton = { as_nondeterministic };

    ghost move_of = { λ e. (Some e.0, e.1) };

    fn states(&self) -> usize {
        self.states()
    }

    fn starts(&self) -> &[usize] {
        if self.states() == 0 { &[] } else { &[0] }
    }

    fn accepting(&self, state: usize) -> bool {
        self.accepting(state)
    }

    fn edges_from(&self, state: usize) -> &[(u32, usize)] {
        self.edges_from(state)
    }

    fn read((letter, to): (u32, usize)) -> (Option<u32>, usize) {
        (Some(letter), to)
    }
}
