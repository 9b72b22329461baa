//! Laws of canonical automata: by the uniqueness of minimal automata (J. Myhill, 1957; A. Nerode, 1958), with the numbers of states.
//! They have no code: each is the contract of a function that does nothing.

ghost use Rattle.minimise.specs.Canonical.{CanonicalIsUnique, CanonicalIsLeast};

/// Two canonical automata over the same letters that accept the same words are equal as data.
pub fn canonical_is_unique()
    ensures { CanonicalIsUnique }
{}

/// A canonical automaton has at most as many states as any automaton that accepts the same words.
pub fn canonical_is_least()
    ensures { CanonicalIsLeast }
{}
