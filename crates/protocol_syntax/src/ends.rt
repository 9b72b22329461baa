//! The sign that ends a form.
//! What the form says is handed in, so that one function lets it go where another token stands there; time is constant.
#![tactic(auto, unfolding(crate::proofs::Unfolded::productions))]

ghost use Rattle.forms.specs.Symbol.{source_of};
ghost use Rattle.forms.specs.Reading.{IsRead};
ghost use Rattle.protocol_syntax.specs.private.Parts.{ended};

use forms::{Form, Sign, Source, SyntaxFault};

/// Reads the sign that ends a form, and gives what the form says.
pub fn ended<T: Drop>(
    said: T,
    end: Sign,
    source: &Source<'_>,
    at: &mut usize,
) -> Result<T, SyntaxFault>
    ensures { IsRead (ended end.0 said) (source_of source.now.text.now source.now.tokens.now) at.old at.new result }
{
    end.read(source, at)?;
    Ok(said)
}
