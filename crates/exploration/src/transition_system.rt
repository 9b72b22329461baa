//! What a deterministic automaton is before its states have numbers: a start state, and the successors of each state by letters.
//! The trait has no code of its own; what a call costs is the implementation's.

ghost use Rattle.std.specs.Prelude.{◌≡◌, true, IfOk, IfSome};
ghost use Rattle.exploration.specs.DeterministicSystem.{DeterministicSystem, IsSuccessors};

use std::alloc::{AllocError, Global};
use std::hash::Hash;

/// A deterministic transition system over the letters `0..letters`, whose states are values with an `==` that is equality.
///
/// Contracts see its `system`, and the states that may be handed in: those with the property `is_state`.
pub trait TransitionSystem {
    type State: Eq + Hash + Drop;

    ghost system: { Self → DeterministicSystem Self.State };

    ghost is_state: { Self → Self.State → Type 0 };

    /// The number of letters.
    fn letters(&self) -> u32
        ensures { result ≡ (system self.now).letters };

    /// The start state, or `None` where there is none.
    fn start(&self, alloc: Global) -> Result<Option<Self::State>, AllocError>
        ensures start { IfOk result (λ start. start ≡ (system self.now).start) }
        ensures state { IfOk result (λ start. IfSome start (is_state self.now)) };

    /// Whether the state accepts.
    fn is_accepting(&self, state: &Self::State) -> bool
        requires { is_state self.now state.now }
        ensures { result ≡ (system self.now).accepting state.now };

    /// The letters that lead from the state to another, in increasing order, each with the state that it leads to.
    fn successors(
        &self,
        alloc: Global,
        state: &Self::State,
    ) -> Result<Vec<(u32, Self::State)>, AllocError>
        requires { is_state self.now state.now }
        ensures { IfOk result (λ pairs. IsSuccessors (system self.now) (is_state self.now) state.now pairs.items) };

    ghost equality: { (x y : Self.State) → Self.State.eq x y ≡ true → x ≡ y };
}
