//! The tokens of a protocol text, with their places.
//! One pass from the left takes the longest piece at each place; time and memory are linear in the text.
#![tactic(auto)]

ghost use Rattle.std.specs.Prelude.{◌≡◌, ◌≢◌, ◌+◌, ◌^◌, ◌<◌, ◌≤◌, ◌++◌, length, [], IfOk, IfSome, OnErr, OnOk};
ghost use Rattle.protocol_lexer.specs.Place.{place_after, place_after_byte, start_place};
ghost use Rattle.protocol_lexer.specs.Piece.{arrow, is_comment_byte, is_word_byte, is_white_space, kind_of_byte, piece};
ghost use Rattle.std.specs.List.{list_all, prefix_len};
ghost use Rattle.protocol_lexer.specs.Tokens.{AreTokens, IsBadByte, LieInOrder};
ghost use Rattle.protocol_lexer.specs.private.Found.{tokens_of_piece};
ghost use Rattle.protocol_lexer.specs.Tokens.{BadByteIsDetermined, TokensAreDetermined, TokensExcludeBadByte, TokensOrBadByte};

use std::alloc::Global;
use thiserror::Error;

/// A place in a text: a line, counted from 1 and raised after each line feed, and a column,
/// counted in bytes from 1.
#[derive(Clone, Copy, Debug, PartialEq, Eq)]
pub struct Place {
    pub line: u64,
    pub column: u64,
}

impl Place {
    /// The place of the first byte of a text.
    pub const START: Place = Place { line: 1, column: 1 };

    /// The place after the bytes that stand here.
    pub fn after(self, bytes: &[u8]) -> Place
        requires line_fits { self.line + length bytes.now < 2 ^ 64 }
        requires column_fits { self.column + length bytes.now < 2 ^ 64 }
        ensures place { result ≡ place_after self bytes.now }
        ensures line { result.line ≤ self.line + length bytes.now }
        ensures column { result.column ≤ self.column + length bytes.now }
    {
        let mut place = self;
        'bytes: for b in bytes {
            place = place.after_byte(*b);
        }
        place
    }

    /// The place after the last byte of the text, where a further byte would stand.
    pub fn end_of(text: &[u8]) -> Place
        ensures { result ≡ place_after start_place text.now }
    {
        Place::START.after(text)
    }

    fn after_byte(self, b: u8) -> Place
        requires line_fits { self.line + 1 < 2 ^ 64 }
        requires column_fits { self.column + 1 < 2 ^ 64 }
        ensures { result ≡ place_after_byte self b }
    {
        if b == b'\n' {
            Place {
                line: self.line + 1,
                column: 1,
            }
        } else {
            Place {
                line: self.line,
                column: self.column + 1,
            }
        }
    }
}

/// What kind of token it is: a word of letters, digits and `_`, one of `{ } : ; * +`, or `->`.
#[derive(Clone, Copy, PartialEq, Eq)]
pub enum TokenKind {
    Word,
    BraceLeft,
    BraceRight,
    Colon,
    Semicolon,
    Star,
    Plus,
    Arrow,
}

/// A token: the bytes of the text from `start` up to `end`, and the place of the first of them.
#[derive(Clone, Copy, PartialEq, Eq)]
pub struct Token {
    pub kind: TokenKind,
    pub start: usize,
    pub end: usize,
    pub place: Place,
}

/// Why a text has no list of tokens.
#[derive(Clone, Copy, Debug, PartialEq, Eq, Error)]
#[error("{:?}", self)]
pub enum LexFault {
    /// The byte at this place is the first that begins no token, white space or comment.
    BadByte { place: Place },
    /// There is no memory for the list.
    Memory,
}

/// What stands at the front of some bytes: `length` bytes that are white space or a comment, or a
/// token of this kind.
#[derive(Clone, Copy)]
struct Piece {
    kind: Option<TokenKind>,
    length: usize,
}

/// The tokens of the text, from the left, each word as long as possible.
///
/// `BadByte` is answered where some byte outside a comment begins no token, with the place of the
/// first such byte; `Memory` where there is no memory for the list.
pub fn tokens(alloc: Global, text: &[u8]) -> Result<Vec<Token>, LexFault>
    ensures taken { IfOk result (λ found. AreTokens text.now found.items) }
    ensures lie_in_order { IfOk result (λ found. LieInOrder text.now found.items) }
    ensures bad_byte { (place : Place) → result ≡ Err (LexFault.BadByte place) → IsBadByte text.now place }
{
    let mut found = Vec::new(alloc);
    let mut rest = text;
    let mut at = 0;
    let mut place = Place::START;
    'tokens: while !rest.is_empty() {
        let Some(piece) = piece_of(rest) else {
            return Err(LexFault::BadByte { place });
        };
        push_token(&mut found, piece, at, place)?;
        let (front, back) = rest.split_at(piece.length);
        place = place.after(front);
        rest = back;
        at += piece.length;
    }
    Ok(found)
}

#[tactic(auto, using(crate::proofs::Taking::within), unfolding(crate::specs::Piece::piece))]
fn piece_of(bytes: &[u8]) -> Option<Piece>
    ensures piece { result ≡ piece bytes.now }
    ensures within { IfSome result (λ p. (0 < p.length) × (p.length ≤ length bytes.now)) }
{
    let [first, after @ ..] = bytes else {
        return None;
    };
    let first = *first;
    if is_white_space(first) {
        return Some(Piece {
            kind: None,
            length: 1,
        });
    }
    if first == b'#' {
        return Some(Piece {
            kind: None,
            length: comment_length(bytes),
        });
    }
    if is_word_byte(first) {
        return Some(Piece {
            kind: Some(TokenKind::Word),
            length: word_length(bytes),
        });
    }
    if first == b'-' {
        return arrow(after);
    }
    let kind = kind_of_byte(first)?;
    Some(Piece {
        kind: Some(kind),
        length: 1,
    })
}

/// Appends the token, if the piece at this offset and place is one.
fn push_token(
    found: &mut Vec<Token>,
    piece: Piece,
    start: usize,
    place: Place,
) -> Result<(), LexFault>
    requires { start + piece.length < 2 ^ 64 }
    ensures ok { OnOk result (found.new.items ≡ found.old.items ++ tokens_of_piece piece start place) }
    ensures err { OnErr result (result ≡ Err LexFault.Memory) }
{
    let Some(kind) = piece.kind else {
        return Ok(());
    };
    let token = Token {
        kind,
        start,
        end: start + piece.length,
        place,
    };
    found.push(token).map_err(|_| LexFault::Memory)
}

/// The length of the comment that the bytes begin with: up to a line feed or the end.
fn comment_length(bytes: &[u8]) -> usize
    ensures { result ≡ prefix_len is_comment_byte bytes.now }
{
    bytes.iter().take_while(|b| is_comment_byte(**b)).count()
}

fn is_comment_byte(b: u8) -> bool
    ensures { result ≡ is_comment_byte b }
{
    b != b'\n'
}

/// Whether each byte is a letter of ASCII, a digit or `_`, as those of words are.
pub fn are_word_bytes(bytes: &[u8]) -> bool
    ensures { result ≡ list_all is_word_byte bytes.now }
{
    bytes.iter().all(|b| is_word_byte(*b))
}

/// The length of the word that the bytes begin with.
fn word_length(bytes: &[u8]) -> usize
    ensures { result ≡ prefix_len is_word_byte bytes.now }
{
    bytes.iter().take_while(|b| is_word_byte(**b)).count()
}

fn is_word_byte(b: u8) -> bool
    ensures { result ≡ is_word_byte b }
{
    (b >= b'A' && b <= b'Z') || (b >= b'a' && b <= b'z') || (b >= b'0' && b <= b'9') || b == b'_'
}

fn is_white_space(b: u8) -> bool
    ensures { result ≡ is_white_space b }
{
    b == b' ' || b == b'\t' || b == b'\n' || b == b'\r'
}

/// The piece `->`, at bytes that begin with `-`, if they go on with `>`.
fn arrow(after: &[u8]) -> Option<Piece>
    ensures { result ≡ arrow after.now }
{
    if *after.first()? == b'>' {
        Some(Piece {
            kind: Some(TokenKind::Arrow),
            length: 2,
        })
    } else {
        None
    }
}

fn kind_of_byte(b: u8) -> Option<TokenKind>
    ensures { result ≡ kind_of_byte b }
{
    match b {
        b'{' => Some(TokenKind::BraceLeft),
        b'}' => Some(TokenKind::BraceRight),
        b':' => Some(TokenKind::Colon),
        b';' => Some(TokenKind::Semicolon),
        b'*' => Some(TokenKind::Star),
        b'+' => Some(TokenKind::Plus),
        _ => None,
    }
}

/// A text has one list of tokens or one first bad byte, and never both.
pub fn one_reading()
    ensures tokens { TokensAreDetermined }
    ensures bad_byte { BadByteIsDetermined }
    ensures either { TokensExcludeBadByte }
    ensures every { TokensOrBadByte }
{}
