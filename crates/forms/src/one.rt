//! Forms of one token: a symbol, a name, or one of some names.
//! Each looks at one token; a name is compared with each of the names that it may be.

ghost use Rattle.std.specs.Prelude.{◌≡◌, ◌<◌, length, position};
ghost use Rattle.std.specs.Str.{bytes_eq};
ghost use Rattle.protocol_lexer.specs.Tokens.{LiesIn};
ghost use Rattle.forms.specs.Symbol.{source_of};
ghost use Rattle.forms.specs.Grammar.{means, name, one_of, sign};
ghost use Rattle.forms.specs.Reading.{Gives, read_among};

use crate::fault::SyntaxFault;
use crate::form::Form;
use crate::name::Name;
use crate::source::Source;
use crate::symbol::Symbol;
use protocol_lexer::{Token, TokenKind};
use sequence::Text;

/// A reserved word or a sign.
#[derive(Clone, Copy)]
pub struct Sign(pub Symbol);

/// The sign `{`.
pub const BRACE_LEFT: Sign = Sign(Symbol::Sign(TokenKind::BraceLeft));

/// The sign `}`.
pub const BRACE_RIGHT: Sign = Sign(Symbol::Sign(TokenKind::BraceRight));

/// The sign `:`.
pub const COLON: Sign = Sign(Symbol::Sign(TokenKind::Colon));

/// The sign `;`.
pub const SEMICOLON: Sign = Sign(Symbol::Sign(TokenKind::Semicolon));

/// The sign `->`.
pub const ARROW: Sign = Sign(Symbol::Sign(TokenKind::Arrow));

impl Form for Sign {
    type Meaning = ();

    ghost grammar = { λ x. sign x.0 };

    fn opens(&self, source: &Source<'_>, at: usize) -> bool {
        source.next_is(at, self.0)
    }

    fn read(&self, source: &Source<'_>, at: &mut usize) -> Result<(), SyntaxFault> {
        source.sign(at, self.0)
    }
}

/// A reserved word or a sign, with a meaning.
#[derive(Clone, Copy)]
pub struct Means<A>(pub Symbol, pub A);

impl<A: Copy> Form for Means<A> {
    type Meaning = A;

    ghost grammar = { λ x. means x.0 x.1 };

    fn opens(&self, source: &Source<'_>, at: usize) -> bool {
        source.next_is(at, self.0)
    }

    #[tactic(auto, unfolding(crate::specs::Reading::read_then))]
    fn read(&self, source: &Source<'_>, at: &mut usize) -> Result<A, SyntaxFault> {
        source.sign(at, self.0)?;
        Ok(self.1)
    }
}

/// A name.
#[derive(Clone, Copy)]
pub struct AnyName;

impl Form for AnyName {
    type Meaning = Name;

    ghost grammar = { λ _. name };

    fn opens(&self, source: &Source<'_>, at: usize) -> bool {
        source.next_is(at, Symbol::Unreserved)
    }

    fn read(&self, source: &Source<'_>, at: &mut usize) -> Result<Name, SyntaxFault> {
        source.name(at)
    }
}

/// One of the names, which means its number.
#[derive(Clone, Copy)]
pub struct OneOf<'a>(pub &'a [Text]);

impl<'a> Form for OneOf<'a> {
    type Meaning = usize;

    ghost grammar = { λ x. one_of x.0.now };

    fn opens(&self, source: &Source<'_>, at: usize) -> bool {
        source.next_is(at, Symbol::Unreserved)
    }

    #[tactic(auto, unfolding(crate::specs::Reading::read_one_of))]
    fn read(&self, source: &Source<'_>, at: &mut usize) -> Result<usize, SyntaxFault> {
        match source.token_at(*at) {
            Some((Symbol::Unreserved, token)) => read_among(self.0, token, source, at),
            _ => Err(source.unexpected(*at)),
        }
    }
}

fn read_among(
    names: &[Text],
    token: Token,
    source: &Source<'_>,
    at: &mut usize,
) -> Result<usize, SyntaxFault>
    requires lies { LiesIn source.now.text.now token }
    requires within { at.old < length source.now.tokens.now }
    ensures { Gives (read_among (source_of source.now.text.now source.now.tokens.now) names.now token at.old) at.new result }
{
    match number_of(names, &source.text[token.start..token.end]) {
        Some(number) => {
            *at += 1;
            Ok(number)
        }
        None => Err(source.unexpected(*at)),
    }
}

fn number_of(names: &[Text], word: &[u8]) -> Option<usize>
    ensures { result ≡ position (bytes_eq word.now) names.now }
{
    names
        .iter()
        .position(|name| is(word, name.as_str().as_bytes()))
}

fn is(word: &[u8], text: &[u8]) -> bool
    ensures { result ≡ bytes_eq word.now text.now }
{
    word == text
}
