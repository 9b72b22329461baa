//! What the search asks of an abstraction: classes of the states of an automaton, and how it is refined by a set that no bad run goes
//! through. The traits have no code of their own; what a call costs is the implementation's.

ghost use Rattle.std.specs.Prelude.{◌≡◌, ℕ, List, [], ◌∷◌, ◌++◌, IfOk, OnOk, OnErr, length};
ghost use Rattle.word_automata.specs.Automaton.{Automaton};
ghost use Rattle.abstraction.specs.Merging.{Key, IsOver, IsEquivalence, AreClasses};
ghost use Rattle.abstraction.specs.KnownClasses.{AreClassesBefore};
ghost use Rattle.abstraction.specs.Excluding.{refined_by, Excludes};

use minimise::Canon;
use std::alloc::{AllocError, Global};

/// A relation on the states of each automaton, which a key and the automaton determine.
pub trait Abstraction {
    ghost key: { Self → Key };

    ghost related: { Key → Automaton → ℕ → ℕ → Type 0 };

    /// A number for each state of the automaton; two are equal exactly where their states are related. The automaton has the letters
    /// of the key's automata.
    fn classes(&self, alloc: Global, a: &Canon) -> Result<Vec<usize>, AllocError>
        requires { IsOver a.now.letters (key self.now) }
        ensures { IfOk result (λ classes. AreClasses (related (key self.now) a.now) (length a.now.states) classes.items) };

    // The relation is an equivalence.
    ghost equivalence: { (k : Key) (a : Automaton) → IsEquivalence (related k a) };
}

/// An abstraction that a refuted set refines: the next key, which the old one and the set determine, relates no more states.
///
/// Contracts see what a refinement makes of the abstraction as `after`.
pub trait Refinable: Abstraction {
    ghost next: { Key → Automaton → Key };

    ghost after: { Self → Automaton → Self };

    /// Refines the abstraction by a refuted set, which has the letters of the key's automata. When out of memory it is as before.
    fn refine(&mut self, alloc: Global, refuted: &Canon) -> Result<(), AllocError>
        requires { IsOver refuted.now.letters (Self.key self.old) }
        ensures ok { OnOk result (Self.key self.new ≡ next (Self.key self.old) refuted.now) }
        ensures value { OnOk result (self.new ≡ after self.old refuted.now) }
        ensures err { OnErr result (self.new ≡ self.old) };

    /// What `classes` gives, where the classes `before` of the automaton under the key before the last refinement are known.
    fn classes_after(
        &self,
        alloc: Global,
        a: &Canon,
        before: &[usize],
    ) -> Result<Vec<usize>, AllocError>
        requires letters { IsOver a.now.letters (Self.key self.now) }
        requires before { AreClassesBefore Self.related next (Self.key self.now) a.now before.now }
        ensures { IfOk result (λ classes. AreClasses (Self.related (Self.key self.now) a.now) (length a.now.states) classes.items) }
    {
        let _before = before;
        self.classes(alloc, a)
    }

    // What the next key relates, the key relates too.
    ghost finer: { (k : Key) (x a : Automaton) (p q : ℕ) → Self.related (next k x) a p q → Self.related k a p q };

    // The next key's automata have the letters of the key's and of the refuted set.
    ghost stays_over: { (k : Key) (x : Automaton) (letters : ℕ) → IsOver letters k → x.letters ≡ letters → IsOver letters (next k x) };
}

/// An abstraction that keeps out the sets by which it was refined: an automaton that misses such a set misses it when it is merged.
///
/// Contracts see the sets as `refuted`, in the order in which they came, and the key that was there before them as `first`.
pub trait Excluding: Refinable {
    ghost first: { Self → Key };

    ghost refuted: { Self → List Automaton };

    /// The number of refuted sets by which the abstraction was refined.
    fn refuted_count(&self) -> usize
        ensures { result ≡ length (refuted self.now) };

    // The key is the first one, refined by the refuted sets.
    ghost refined: { (s : Self) → Self.key s ≡ refined_by Self.next (first s) (refuted s) };

    // A refinement leaves the first key.
    ghost first_stays: { (s : Self) (x : Automaton) → first (Self.after s x) ≡ first s };

    // The refuted sets are those by which it was refined: each refinement adds its set.
    ghost adds: { (s : Self) (x : Automaton) → refuted (Self.after s x) ≡ refuted s ++ x ∷ [] };

    // Merged automata miss the refuted sets that the automata miss.
    ghost excludes: { Excludes Self.related Self.next };
}
