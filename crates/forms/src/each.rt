//! Forms of a list that is known only when the text is read.
//! One loop over the list; time is that of its forms.

ghost use Rattle.forms.specs.Symbol.{source_of};
ghost use Rattle.forms.specs.Grammar.{Grammar, each};
ghost use Rattle.forms.specs.Reading.{IsRead};

use crate::fault::SyntaxFault;
use crate::source::{Source, push};
use sequence::Sequence;

/// A form for each value of a type.
pub trait FormOf {
    type Value;

    type Meaning: Drop;

    // What stands in the text for the value.
    ghost grammar: { Self → Self.Value → Grammar Self.Meaning };

    /// Reads what stands for the value at the index, and moves the index behind it.
    fn read_for(
        &self,
        value: &Self::Value,
        source: &Source<'_>,
        at: &mut usize,
    ) -> Result<Self::Meaning, SyntaxFault>
        ensures { IsRead (grammar self.now value.now) (source_of source.now.text.now source.now.tokens.now) at.old at.new result };
}

/// Reads one sequence for each of the values.
pub fn read_each<X: FormOf>(
    form: &X,
    values: &[X::Value],
    source: &Source<'_>,
    at: &mut usize,
) -> Result<Sequence<X::Meaning>, SyntaxFault>
    ensures { IsRead (each (X.grammar form.now) values.now) (source_of source.now.text.now source.now.tokens.now) at.old at.new result }
{
    let mut found = Vec::new(source.alloc);
    let mut left = values;
    'values: while let Some((value, others)) = left.split_first() {
        let meaning = form.read_for(value, source, at)?;
        push(&mut found, meaning)?;
        left = others;
    }
    Ok(Sequence::from_vec(found))
}
