//! Reading a whole text.
//! The tokens are made first, and then read once from the left, so that the first fault is that of the first wrong token.

ghost use Rattle.std.specs.Prelude.{◌≡◌, ◌≢◌, ◌↔◌, true, IfErr, IfOk};
ghost use Rattle.forms.specs.Shape.{IsUniform, is_told, shape};
ghost use Rattle.forms.specs.FirstFault.{IsFault, IsMeaning};

use crate::fault::SyntaxFault;
use crate::form::Form;
use crate::law::one_reading as one_meaning_or_fault;
use crate::source::Source;
use protocol_lexer::{LexFault, one_reading, tokens};
use std::alloc::Global;

/// What the text means by the form.
///
/// `BadByte` is answered where a byte outside a comment begins no token; else `Unexpected` or
/// `TooMany` at the first token that cannot stand where it stands, or begins an item past a limit;
/// `Memory` where there is no memory for the meaning.
pub fn parse<X: Form>(alloc: Global, form: &X, text: &[u8]) -> Result<X::Meaning, SyntaxFault>
    requires uniform { IsUniform (X.grammar form.now) }
    requires told { is_told (shape (X.grammar form.now)) ≡ true }
    ensures meaning { IfOk result (λ found. (a : X.Meaning) → IsMeaning (X.grammar form.now) text.now a ↔ (found ≡ a)) }
    ensures no_meaning { IfErr result (λ fault. fault ≢ SyntaxFault.Memory
        → (a : X.Meaning) → IsMeaning (X.grammar form.now) text.now a → ⊥) }
    ensures no_fault { IfOk result (λ _. (fault : SyntaxFault) → IsFault (X.grammar form.now) text.now fault → ⊥) }
    ensures fault { IfErr result (λ fault. fault ≢ SyntaxFault.Memory
        → (other : SyntaxFault) → IsFault (X.grammar form.now) text.now other ↔ (fault ≡ other)) }
{
    one_reading();
    one_meaning_or_fault(form);
    let tokens = match tokens(alloc, text) {
        Ok(tokens) => tokens,
        Err(LexFault::BadByte { place }) => return Err(SyntaxFault::BadByte { place }),
        Err(LexFault::Memory) => return Err(SyntaxFault::Memory),
    };
    let source = Source {
        alloc,
        text,
        tokens: tokens.as_slice(),
    };
    let mut at = 0;
    let found = form.read(&source, &mut at)?;
    if at == tokens.len() {
        Ok(found)
    } else {
        Err(source.unexpected(at))
    }
}
