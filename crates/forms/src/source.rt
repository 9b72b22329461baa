//! The tokens of a text, as the reader of the grammar sees them.
//! The reader looks one token ahead and never goes back: each call reads what stands at an index, or tells the first token that cannot.

ghost use Rattle.std.specs.Prelude.{◌≡◌, ◌+◌, ◌<◌, ◌++◌, ◌∷◌, [], ℕ, Ok, Some, length, IsTrue, OnErr, OnOk, IfOk, IfSome, slice_get};
ghost use Rattle.protocol_lexer.specs.declared.Token.{Token};
ghost use Rattle.protocol_lexer.specs.Tokens.{LiesIn};
ghost use Rattle.forms.specs.Symbol.{place_at, source_of, spelled, symbol, token_at};
ghost use Rattle.forms.specs.Shape.{next_is};
ghost use Rattle.forms.specs.Grammar.{name, sign};
ghost use Rattle.forms.specs.Reading.{Gives, IsRead, is_long_at, read_word};

use crate::fault::{SyntaxFault, What};
use crate::name::{MAX_NAME_BYTES, Name};
use crate::symbol::{Symbol, keyword_of};
use protocol_lexer::{Place, Token, TokenKind};
use sequence::{Sequence, Text};
use std::alloc::Global;

/// A text and its tokens, and the allocator for what is read. A reading begins at the token with the
/// index `at`, and leaves `at` at the token after what it read.
#[derive(Drop)]
pub struct Source<'a> {
    pub alloc: Global,
    pub text: &'a [u8],
    pub tokens: &'a [Token],
    ghost tokens_lie_in_text: { (i : ℕ) (t : Token) → slice_get tokens.now i ≡ Some t → LiesIn text.now t },
}

/// Appends an item.
pub fn push<T: Drop>(items: &mut Vec<T>, item: T) -> Result<(), SyntaxFault>
    ensures ok { OnOk result (items.new.items ≡ items.old.items ++ item ∷ []) }
    ensures memory { OnErr result (result ≡ Err SyntaxFault.Memory) }
{
    items.push(item).map_err(|_| SyntaxFault::Memory)
}

/// A sequence of an item and of more after it.
pub fn with_first<T: Drop>(first: T, more: Vec<T>) -> Result<Sequence<T>, SyntaxFault>
    ensures ok { IfOk result (λ s. s ≡ first ∷ more.items) }
    ensures memory { OnErr result (result ≡ Err SyntaxFault.Memory) }
{
    let mut items = more;
    items.insert(0, first).map_err(|_| SyntaxFault::Memory)?;
    Ok(Sequence::from_vec(items))
}

fn item_at(tokens: &[Token], at: usize) -> Option<Token>
    ensures item { result ≡ slice_get tokens.now at }
    ensures within { IfSome result (λ _. at < length tokens.now) }
{
    tokens.get(at).copied()
}

impl Source<'_> {
    /// The token at the index, with its symbol.
    pub fn token_at(&self, at: usize) -> Option<(Symbol, Token)>
        ensures token { result ≡ token_at (source_of self.now.text.now self.now.tokens.now) at }
        ensures lies { IfSome result (λ found. LiesIn self.now.text.now found.1) }
        ensures within { IfSome result (λ found. at < length self.now.tokens.now) }
    {
        match item_at(self.tokens, at) {
            Some(token) => Some((self.symbol(token), token)),
            None => None,
        }
    }

    fn symbol(&self, token: Token) -> Symbol
        requires { LiesIn self.now.text.now token }
        ensures { result ≡ symbol self.now.text.now token }
    {
        match token.kind {
            TokenKind::Word => match keyword_of(&self.text[token.start..token.end]) {
                Some(keyword) => Symbol::Reserved(keyword),
                None => Symbol::Unreserved,
            },
            TokenKind::BraceLeft => Symbol::Sign(TokenKind::BraceLeft),
            TokenKind::BraceRight => Symbol::Sign(TokenKind::BraceRight),
            TokenKind::Colon => Symbol::Sign(TokenKind::Colon),
            TokenKind::Semicolon => Symbol::Sign(TokenKind::Semicolon),
            TokenKind::Star => Symbol::Sign(TokenKind::Star),
            TokenKind::Plus => Symbol::Sign(TokenKind::Plus),
            TokenKind::Arrow => Symbol::Sign(TokenKind::Arrow),
        }
    }

    /// The place of the token at the index, and behind the last token that of the end of the text.
    pub fn place_at(&self, at: usize) -> Place
        ensures { result ≡ place_at (source_of self.now.text.now self.now.tokens.now) at }
    {
        match self.tokens.get(at) {
            Some(token) => token.place,
            None => Place::end_of(self.text),
        }
    }

    /// The fault that the token at the index cannot stand there.
    pub fn unexpected(&self, at: usize) -> SyntaxFault
        ensures { result ≡ SyntaxFault.Unexpected (place_at (source_of self.now.text.now self.now.tokens.now) at) }
    {
        SyntaxFault::Unexpected {
            place: self.place_at(at),
        }
    }

    /// The fault that the token at the index begins an item past a limit.
    pub fn too_many(&self, at: usize, what: What) -> SyntaxFault
        ensures { result ≡ SyntaxFault.TooMany what (place_at (source_of self.now.text.now self.now.tokens.now) at) }
    {
        let place = self.place_at(at);
        SyntaxFault::TooMany { what, place }
    }

    /// Whether the token at the index is this symbol.
    pub fn next_is(&self, at: usize, symbol: Symbol) -> bool
        ensures is { result ≡ next_is (source_of self.now.text.now self.now.tokens.now) symbol at }
        ensures within { IsTrue result → at < length self.now.tokens.now }
    {
        match self.token_at(at) {
            Some((found, _)) => found.is(symbol),
            None => false,
        }
    }

    /// Reads a token that is this symbol.
    #[tactic(auto, unfolding(crate::specs::Reading::read_sign))]
    pub fn sign(&self, at: &mut usize, symbol: Symbol) -> Result<(), SyntaxFault>
        ensures gives { IsRead (sign symbol) (source_of self.now.text.now self.now.tokens.now) at.old at.new result }
        ensures onward { OnOk result (at.old < at.new) }
    {
        if !self.next_is(*at, symbol) {
            return Err(self.unexpected(*at));
        }
        *at += 1;
        Ok(())
    }

    /// Reads a name.
    #[tactic(auto, unfolding(crate::specs::Reading::read_name))]
    pub fn name(&self, at: &mut usize) -> Result<Name, SyntaxFault>
        ensures gives { IsRead name (source_of self.now.text.now self.now.tokens.now) at.old at.new result }
        ensures onward { OnOk result (at.old < at.new) }
    {
        match self.token_at(*at) {
            Some((Symbol::Unreserved, token)) => self.word(token, at),
            _ => Err(self.unexpected(*at)),
        }
    }

    fn word(&self, token: Token, at: &mut usize) -> Result<Name, SyntaxFault>
        requires word { token.kind ≡ TokenKind.Word }
        requires lies { LiesIn self.now.text.now token }
        requires within { at.old < length self.now.tokens.now }
        ensures gives { Gives (read_word (source_of self.now.text.now self.now.tokens.now) token at.old) at.new result }
        ensures onward { OnOk result (at.old < at.new) }
    {
        if token.end - token.start > MAX_NAME_BYTES {
            return Err(SyntaxFault::TooMany {
                what: What::NameBytes,
                place: token.place,
            });
        }
        let text = self.text_of(token)?;
        *at += 1;
        Ok(Name {
            text,
            place: token.place,
        })
    }

    fn text_of(&self, token: Token) -> Result<Text, SyntaxFault>
        requires word { token.kind ≡ TokenKind.Word }
        requires lies { LiesIn self.now.text.now token }
        ensures ok { IfOk result (λ text. text ≡ spelled self.now.text.now token) }
        ensures memory { OnErr result (result ≡ Err SyntaxFault.Memory) }
    {
        let Ok(word) = std::str::from_utf8(&self.text[token.start..token.end]) else {
            unreachable!()
        };
        let text = String::from_str(self.alloc, word).map_err(|_| SyntaxFault::Memory)?;
        Ok(Text::from_string(text))
    }

    /// Whether a name that is too long stands at the index.
    #[tactic(auto, unfolding(crate::specs::Reading::is_long_at))]
    pub fn is_long(&self, at: usize) -> bool
        ensures { result ≡ is_long_at (source_of self.now.text.now self.now.tokens.now) at }
    {
        match self.token_at(at) {
            Some((Symbol::Unreserved, token)) => token.end - token.start > MAX_NAME_BYTES,
            _ => false,
        }
    }
}
