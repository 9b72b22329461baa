//! A law of the relation of predicates: two states that share a word share one that is shorter than there are pairs of states, by a pair
//! that comes twice on the way. It has no code: it is the contract of a function that does nothing.

ghost use Rattle.predicate_abstraction.specs.Signatures.{RelatedBySignature, TestsSharedWords};

/// States are related exactly where their signatures are equal, and the values of a signature say with which states a word is shared.
pub fn related_by_signature()
    ensures related { RelatedBySignature }
    ensures shared { TestsSharedWords }
{}
