//! What holds of every text of properties.
//! The function does nothing; its contract is the law.

ghost use Rattle.std.specs.Prelude.{ℕ, List};
ghost use Rattle.forms.specs.declared.name.Name.{Name};
ghost use Rattle.protocol_syntax.specs.declared.protocol.RowText.{RowText};
ghost use Rattle.protocol_syntax.specs.Properties.{AreProperties};
ghost use Rattle.protocol_properties.specs.Properties.{AreAllowedBlocks};

/// The blocks that a text of properties says are ones that `resolve_properties` takes. The function does nothing.
pub fn texts_say_allowed_properties()
    ensures { (text : List ℕ) (blocks : List (Name × RowText)) → AreProperties text blocks → AreAllowedBlocks blocks }
{}
