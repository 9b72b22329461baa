//! Reading a protocol.
//! A form is read by recursive descent with one token of lookahead; time is linear in the tokens.

ghost use Rattle.std.specs.Prelude.{◌≡◌, ◌≢◌, ◌↔◌, IfErr, IfOk};
ghost use Rattle.protocol_syntax.specs.Grammar.{IsFirstFault, IsProtocol, protocol, second_language};

use crate::law::limits_and_words;
use crate::limits::{MAX_ROWS, MAX_RULES};
use crate::moves::Rule;
use crate::protocol::Protocol;
use crate::rows::RowBody;
use crate::sections::sections;
use forms::{
    AnyName, Behind, Form, Keyword, OneOf, Optional, Sign, Source, Symbol, SyntaxFault, Then, UpTo,
    What,
};
use sequence::Text;
use std::alloc::Global;
use std::slice::from_ref;

const PROTOCOL: Sign = Sign(Symbol::Reserved(Keyword::Protocol));

const LANGUAGE: Sign = Sign(Symbol::Reserved(Keyword::Language));

const INIT: UpTo<Behind<RowBody>> = UpTo {
    limit: MAX_ROWS,
    what: What::InitRows,
    form: Behind(Sign(Symbol::Reserved(Keyword::Init)), RowBody),
};

const BAD: UpTo<Behind<RowBody>> = UpTo {
    limit: MAX_ROWS,
    what: What::BadRows,
    form: Behind(Sign(Symbol::Reserved(Keyword::Bad)), RowBody),
};

/// What the head of a text of language 2 says behind the name.
#[derive(Clone, Copy)]
struct SecondLanguage;

#[tactic(auto, unfolding(crate::proofs::Unfolded::productions))]
impl Form for SecondLanguage {
    type Meaning = u32;

    ghost grammar = { λ _. second_language };

    fn opens(&self, source: &Source<'_>, at: usize) -> bool {
        LANGUAGE.opens(source, at)
    }

    fn read(&self, source: &Source<'_>, at: &mut usize) -> Result<u32, SyntaxFault> {
        let two = String::from_str(source.alloc, "2").map_err(|_| SyntaxFault::Memory)?;
        let number = Text::from_string(two);
        LANGUAGE.read(source, at)?;
        OneOf(from_ref(&number)).read(source, at)?;
        Ok(2)
    }
}

/// A whole protocol.
#[derive(Clone, Copy)]
struct WholeProtocol;

#[tactic(auto, unfolding(crate::proofs::Unfolded::productions))]
impl Form for WholeProtocol {
    type Meaning = Protocol;

    ghost grammar = { λ _. protocol };

    fn opens(&self, source: &Source<'_>, at: usize) -> bool {
        PROTOCOL.opens(source, at)
    }

    fn read(&self, source: &Source<'_>, at: &mut usize) -> Result<Protocol, SyntaxFault> {
        let second = Optional(SecondLanguage, 1u32);
        let head = Then(Behind(PROTOCOL, AnyName), second).read(source, at)?;
        let (name, language) = head;
        let sections = sections(language, source, at)?;
        let rules = UpTo {
            limit: MAX_RULES,
            what: What::Rules,
            form: Rule { language },
        };
        let tail = Then(Then(INIT, rules), BAD).read(source, at)?;
        let ((init, rules), bad) = tail;
        Ok(Protocol {
            name,
            language,
            sections,
            init,
            rules,
            bad,
        })
    }
}

/// The protocol of a text, with the text and place of each name.
///
/// `BadByte` is answered where a byte outside a comment begins no token; else `Unexpected` or
/// `TooMany` at the first token that cannot stand where it stands, or begins an item past a limit;
/// `Memory` where there is no memory for the protocol.
pub fn parse(alloc: Global, text: &[u8]) -> Result<Protocol, SyntaxFault>
    ensures protocol { IfOk result (λ found. (p : Protocol) → IsProtocol text.now p ↔ (found ≡ p)) }
    ensures no_protocol { IfErr result (λ fault. fault ≢ SyntaxFault.Memory → (p : Protocol) → IsProtocol text.now p → ⊥) }
    ensures no_fault { IfOk result (λ _. (fault : SyntaxFault) → IsFirstFault text.now fault → ⊥) }
    ensures fault { IfErr result (λ fault. fault ≢ SyntaxFault.Memory
        → (other : SyntaxFault) → IsFirstFault text.now other ↔ (fault ≡ other)) }
{
    limits_and_words();
    forms::parse(alloc, &WholeProtocol, text)
}
