//! A law of merged automata: their words depend on few facts of the automata that are merged, so that rounds are bounded. It has no code:
//! it is the contract of a function that does nothing.

ghost use Rattle.abstraction.specs.Signatures.{FactsDetermineWords};

/// Automata with the same facts have the same words once their states of one signature are merged.
pub fn one_merged_language()
    ensures { FactsDetermineWords }
{}
