//! What every form can do: tell by one token whether it begins there, and read what stands there.
//! Reading takes time linear in the tokens.

ghost use Rattle.std.specs.Prelude.{◌≡◌};
ghost use Rattle.forms.specs.Grammar.{Grammar};
ghost use Rattle.forms.specs.Reading.{IsRead, begins};
ghost use Rattle.forms.specs.Symbol.{source_of};

use crate::fault::SyntaxFault;
use crate::source::Source;

/// A form of texts, by which they are read. Time is linear in the tokens.
pub trait Form {
    type Meaning: Drop;

    // What stands in the text.
    ghost grammar: { Self → Grammar Self.Meaning };

    /// Whether the token at the index begins a sequence of the form.
    fn opens(&self, source: &Source<'_>, at: usize) -> bool
        ensures { result ≡ begins (grammar self.now) (source_of source.now.text.now source.now.tokens.now) at };

    /// Reads what stands at the index, and moves the index behind it.
    fn read(&self, source: &Source<'_>, at: &mut usize) -> Result<Self::Meaning, SyntaxFault>
        ensures { IsRead (grammar self.now) (source_of source.now.text.now source.now.tokens.now) at.old at.new result };
}
