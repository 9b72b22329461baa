//! A law of the relation of futures: it is equality of signatures, by which rounds are bounded. It has no code: it is the contract of a
//! function that does nothing.

ghost use Rattle.future_abstraction.specs.Signatures.{RelatedBySignature};

/// States are related exactly where their signatures are equal.
pub fn related_by_signature()
    ensures { RelatedBySignature }
{}
