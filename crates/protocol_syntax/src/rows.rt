//! Reading rows and their patterns.
//! What stands before an atom's count is told by one token.
#![tactic(auto, unfolding(crate::proofs::Unfolded::productions))]

ghost use Rattle.protocol_syntax.specs.Grammar.{atom, base, part, pattern, row_body};

use crate::ends::ended;
use crate::guards::Set;
use crate::limits::MAX_ATOMS;
use crate::protocol::{AtomText, BaseText, Many as Count, PartText, RowText};
use forms::{
    AnyName, BRACE_LEFT, BRACE_RIGHT, Behind, COLON, Ended, Form, Keyword, Many, Means, NonEmpty,
    Optional, Or, SEMICOLON, Sign, Source, Symbol, SyntaxFault, Then, UpTo, What,
};
use protocol_lexer::TokenKind;
use sequence::Sequence;

const ANY: Sign = Sign(Symbol::Reserved(Keyword::Any));

const EMPTY: Sign = Sign(Symbol::Reserved(Keyword::Empty));

const COUNT: Or<Means<Count>, Means<Count>> = Or(
    Means(Symbol::Sign(TokenKind::Star), Count::Star),
    Means(Symbol::Sign(TokenKind::Plus), Count::Plus),
);

const MORE_ATOMS: UpTo<Atom> = UpTo {
    limit: MAX_ATOMS - 1,
    what: What::Atoms,
    form: Atom,
};

const ATOMS: NonEmpty<Atom, UpTo<Atom>> = NonEmpty(Atom, MORE_ATOMS);

/// What one letter of a pattern may be.
#[derive(Clone, Copy)]
pub struct Base;

impl Form for Base {
    type Meaning = BaseText;

    ghost grammar = { λ _. base };

    fn opens(&self, source: &Source<'_>, at: usize) -> bool {
        AnyName.opens(source, at) || (ANY.opens(source, at) || Set.opens(source, at))
    }

    fn read(&self, source: &Source<'_>, at: &mut usize) -> Result<BaseText, SyntaxFault> {
        if AnyName.opens(source, *at) {
            let letter = AnyName.read(source, at)?;
            return Ok(BaseText::Letter(letter));
        }
        if ANY.opens(source, *at) {
            ANY.read(source, at)?;
            return Ok(BaseText::Any);
        }
        let letters = Set.read(source, at)?;
        Ok(BaseText::Set(letters))
    }
}

/// An atom of a pattern.
#[derive(Clone, Copy)]
pub struct Atom;

impl Form for Atom {
    type Meaning = AtomText;

    ghost grammar = { λ _. atom };

    fn opens(&self, source: &Source<'_>, at: usize) -> bool {
        Base.opens(source, at)
    }

    fn read(&self, source: &Source<'_>, at: &mut usize) -> Result<AtomText, SyntaxFault> {
        let parts = Then(Base, Optional(COUNT, Count::One)).read(source, at)?;
        let (base, many) = parts;
        Ok(AtomText { base, many })
    }
}

/// The pattern of a section.
#[derive(Clone, Copy)]
struct Pattern;

impl Form for Pattern {
    type Meaning = Sequence<AtomText>;

    ghost grammar = { λ _. pattern };

    fn opens(&self, source: &Source<'_>, at: usize) -> bool {
        EMPTY.opens(source, at) || ATOMS.opens(source, at)
    }

    fn read(&self, source: &Source<'_>, at: &mut usize) -> Result<Sequence<AtomText>, SyntaxFault> {
        if EMPTY.opens(source, *at) {
            EMPTY.read(source, at)?;
            return Ok(Sequence::from_vec(Vec::new(source.alloc)));
        }
        ATOMS.read(source, at)
    }
}

/// The pattern of a section, with the section's name.
#[derive(Clone, Copy)]
pub struct Part;

impl Form for Part {
    type Meaning = PartText;

    ghost grammar = { λ _. part };

    fn opens(&self, source: &Source<'_>, at: usize) -> bool {
        AnyName.opens(source, at)
    }

    fn read(&self, source: &Source<'_>, at: &mut usize) -> Result<PartText, SyntaxFault> {
        let pattern = Behind(COLON, Ended(Pattern, SEMICOLON));
        let parts = Then(AnyName, pattern).read(source, at)?;
        let (section, atoms) = parts;
        Ok(PartText { section, atoms })
    }
}

/// The parts of a row.
#[derive(Clone, Copy)]
pub struct RowBody;

impl Form for RowBody {
    type Meaning = RowText;

    ghost grammar = { λ _. row_body };

    fn opens(&self, source: &Source<'_>, at: usize) -> bool {
        BRACE_LEFT.opens(source, at)
    }

    fn read(&self, source: &Source<'_>, at: &mut usize) -> Result<RowText, SyntaxFault> {
        BRACE_LEFT.read(source, at)?;
        let parts = Many(Part).read(source, at)?;
        ended(RowText { parts }, BRACE_RIGHT, source, at)
    }
}
