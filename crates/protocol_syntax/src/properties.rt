//! Reading a text of properties: rows of bad configurations, each with a name.
//! The rows are read as those of protocols are; time is linear in the tokens.

ghost use Rattle.std.specs.Prelude.{◌≡◌, ◌≢◌, ◌↔◌, List, IfErr, IfOk};
ghost use Rattle.forms.specs.declared.name.Name.{Name};
ghost use Rattle.protocol_syntax.specs.declared.protocol.RowText.{RowText};
ghost use Rattle.protocol_syntax.specs.Properties.{AreProperties, IsPropertiesFault, properties};

use crate::limits::MAX_ROWS;
use crate::protocol::RowText;
use crate::rows::RowBody;
use forms::{
    AnyName, Behind, Form, Keyword, Name, NonEmpty, Sign, Source, Symbol, SyntaxFault, Then, UpTo,
    What,
};
use sequence::Sequence;
use std::alloc::Global;

const BAD: Sign = Sign(Symbol::Reserved(Keyword::Bad));

/// A row with the name of its property.
const BLOCK: Behind<Then<AnyName, RowBody>> = Behind(BAD, Then(AnyName, RowBody));

const MORE_BLOCKS: UpTo<Behind<Then<AnyName, RowBody>>> = UpTo {
    limit: MAX_ROWS - 1,
    what: What::BadRows,
    form: BLOCK,
};

/// All properties of a text.
#[derive(Clone, Copy)]
struct Properties;

#[tactic(auto, unfolding(crate::proofs::Unfolded::productions))]
impl Form for Properties {
    type Meaning = Sequence<(Name, RowText)>;

    ghost grammar = { λ _. properties };

    fn opens(&self, source: &Source<'_>, at: usize) -> bool {
        BLOCK.opens(source, at)
    }

    fn read(
        &self,
        source: &Source<'_>,
        at: &mut usize,
    ) -> Result<Sequence<(Name, RowText)>, SyntaxFault> {
        NonEmpty(BLOCK, MORE_BLOCKS).read(source, at)
    }
}

/// The rows of a text of properties, each with its name, in text order.
///
/// `BadByte` is answered where a byte outside a comment begins no token; else `Unexpected` or
/// `TooMany` at the first token that cannot stand where it stands, or begins an item past a limit:
/// a name of more than 32 bytes, the 33rd row of the text or the 33rd atom of a pattern; `Memory`
/// where there is no memory for the rows.
pub fn parse_properties(
    alloc: Global,
    text: &[u8],
) -> Result<Sequence<(Name, RowText)>, SyntaxFault>
    ensures properties { IfOk result (λ found. (rows : List (Name × RowText)) → AreProperties text.now rows ↔ (found ≡ rows)) }
    ensures no_properties { IfErr result (λ fault. fault ≢ SyntaxFault.Memory
        → (rows : List (Name × RowText)) → AreProperties text.now rows → ⊥) }
    ensures no_fault { IfOk result (λ _. (fault : SyntaxFault) → IsPropertiesFault text.now fault → ⊥) }
    ensures fault { IfErr result (λ fault. fault ≢ SyntaxFault.Memory
        → (other : SyntaxFault) → IsPropertiesFault text.now other ↔ (fault ≡ other)) }
{
    forms::parse(alloc, &Properties, text)
}
