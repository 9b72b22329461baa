//! What every text says of itself by every form whose next token tells how to go on.
//! The function does nothing; its contract is the law.

ghost use Rattle.std.specs.Prelude.{◌≡◌, ℕ, List, true};
ghost use Rattle.forms.specs.declared.fault.SyntaxFault.{SyntaxFault};
ghost use Rattle.forms.specs.Shape.{IsUniform, is_told, shape};
ghost use Rattle.forms.specs.FirstFault.{IsFault, IsMeaning, MeaningOrFault};

use crate::form::Form;
use protocol_lexer::one_reading as one_list_of_tokens;

/// A text has one meaning by the form or one first fault, and never both. The function does nothing.
pub fn one_reading<X: Form>(form: &X)
    requires uniform { IsUniform (X.grammar form.now) }
    requires told { is_told (shape (X.grammar form.now)) ≡ true }
    ensures meaning { (text : List ℕ) (a b : X.Meaning)
        → IsMeaning (X.grammar form.now) text a → IsMeaning (X.grammar form.now) text b → a ≡ b }
    ensures fault { (text : List ℕ) (fault other : SyntaxFault)
        → IsFault (X.grammar form.now) text fault → IsFault (X.grammar form.now) text other → fault ≡ other }
    ensures either { (text : List ℕ) (fault : SyntaxFault) (a : X.Meaning)
        → IsFault (X.grammar form.now) text fault → IsMeaning (X.grammar form.now) text a → ⊥ }
    ensures every { (text : List ℕ) → MeaningOrFault (X.grammar form.now) text }
{
    one_list_of_tokens();
}
