//! What holds of every protocol that a text says.
//! The function does nothing; its contract is the law.

ghost use Rattle.std.specs.Prelude.{◌≡◌, ℕ, List, None};
ghost use Rattle.protocol_syntax.specs.declared.protocol.Protocol.{Protocol};
ghost use Rattle.protocol_syntax.specs.Grammar.{IsProtocol};
ghost use Rattle.protocol_model.specs.Allowed.{IsAllowed};
ghost use Rattle.protocol_model.specs.Faults.{first_fault};
ghost use Rattle.protocol_model.specs.Numbering.{system_of};
ghost use Rattle.protocol_model.specs.System.{IsValid};

/// A protocol that some text says is one that `resolve` takes, and where such a protocol has no fault its system is valid. The
/// function does nothing.
pub fn texts_say_allowed_protocols()
    ensures allowed { (text : List ℕ) (p : Protocol) → IsProtocol text p → IsAllowed p }
    ensures valid { (p : Protocol) → IsAllowed p → first_fault p ≡ None → IsValid (system_of p) }
{}
