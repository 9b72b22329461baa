//! Systems of states that stand for languages, so that a set of states may be any one with the right language.
//! The trait has no code of its own; what a call costs is the implementation's.

ghost use Rattle.std.specs.Prelude.{◌≡◌, ◌↔◌, ℕ, List, [], true, IsTrue, IfOk, IfSome};
ghost use Rattle.exploration.specs.Residuals.{StartsWith, AreResiduals};

use std::alloc::{AllocError, Global};
use std::hash::Hash;

/// States that stand for languages over the letters `0..letters`, with an `==` that is equality.
///
/// Contracts see the words that the whole `accepted`, the `language` of a state, and the states that may be handed in: those with
/// the property `is_state`. What a call answers may be one of many, so long as the languages are right.
pub trait LanguageSystem {
    type State: Eq + Hash + Drop;

    ghost letter_count: { Self → ℕ };

    ghost accepted: { Self → List ℕ → Type 0 };

    ghost language: { Self → Self.State → List ℕ → Type 0 };

    ghost is_state: { Self → Self.State → Type 0 };

    /// The number of letters.
    fn letters(&self) -> u32
        ensures { result ≡ letter_count self.now };

    /// The start state, or `None` where no word is accepted.
    fn start(&self, alloc: Global) -> Result<Option<Self::State>, AllocError>
        ensures start { IfOk result (StartsWith (accepted self.now) (language self.now)) }
        ensures state { IfOk result (λ start. IfSome start (is_state self.now)) };

    /// Whether the language of the state has the empty word.
    fn is_accepting(&self, state: &Self::State) -> bool
        requires { is_state self.now state.now }
        ensures { IsTrue result ↔ language self.now state.now [] };

    /// The letters that begin words of the state's language, in increasing order, each with a state whose language is that of the
    /// rests of these words.
    fn successors(
        &self,
        alloc: Global,
        state: &Self::State,
    ) -> Result<Vec<(u32, Self::State)>, AllocError>
        requires { is_state self.now state.now }
        ensures { IfOk result (λ pairs. AreResiduals
            (letter_count self.now) (language self.now) (is_state self.now) state.now pairs.items) };

    ghost equality: { (x y : Self.State) → Self.State.eq x y ≡ true → x ≡ y };
}
