//! Graphs whose edges have a letter or none, as a search for a least word sees them: it asks for the edges of each state once, and for
//! its code.

ghost use Rattle.std.specs.Prelude.{◌≡◌, ◌↔◌, ℕ, Bool, Option, None, Some, [], true, All, Contains, IfOk, OnOk};
ghost use Rattle.boolean_operations.specs.private.Search.{Gathers};

use std::alloc::{AllocError, Global};

/// A graph whose edges have a letter or none, with starts and goals, and an `==` of states that is equality.
///
/// Contracts see which states may be handed in, those with the property `is_state`, which are starts and which goals, and the
/// edges.
pub trait Graph {
    type State: Copy + Eq + Drop;

    ghost is_state: { Self → Self.State → Type 0 };

    ghost is_start: { Self → Self.State → Type 0 };

    ghost edge: { Self → Self.State → Option ℕ → Self.State → Type 0 };

    ghost goal: { Self → Self.State → Bool };

    /// The starts.
    fn starts(&self, alloc: Global) -> Result<Vec<Self::State>, AllocError>
        ensures states { IfOk result (λ starts. All (is_state self.now) starts.items) }
        ensures starts { IfOk result (λ starts. (s : Self.State) → Contains starts.items s ↔ is_start self.now s) };

    /// Whether the state is a goal.
    fn is_goal(&self, state: &Self::State) -> bool
        requires { is_state self.now state.now }
        ensures { result ≡ goal self.now state.now };

    /// The states to which edges without a letter lead from the state.
    fn silent_targets(
        &self,
        alloc: Global,
        state: &Self::State,
    ) -> Result<Vec<Self::State>, AllocError>
        requires { is_state self.now state.now }
        ensures { IfOk result (λ targets. Gathers (is_state self.now) (edge self.now state.now None) [] targets.items) };

    /// Adds the edges of the state that have a letter, each with the state that it leads to.
    fn add_steps(
        &self,
        state: &Self::State,
        steps: &mut Vec<(u32, Self::State)>,
    ) -> Result<(), AllocError>
        requires { is_state self.now state.now }
        ensures { OnOk result (Gathers (λ step. is_state self.now step.1) (λ step. edge self.now state.now (Some step.0) step.1)
            steps.old.items steps.new.items) };

    /// A number above all codes, so small as can be told.
    fn codes(&self) -> usize;

    /// The code of the state. Different states are to have different codes. States that share one are told apart all the same, but what
    /// is looked up of them may be found anew at each visit, so that a walk can run out of memory.
    fn code(&self, state: &Self::State) -> usize;

    ghost equality: { (x y : Self.State) → Self.State.eq x y ≡ true → x ≡ y };
}
