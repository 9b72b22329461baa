//! Reading sections.
//! The letters of the earlier sections are counted anew for each section, of which there are few.
#![tactic(auto, unfolding(crate::proofs::Unfolded::productions))]

ghost use Rattle.std.specs.Prelude.{◌≡◌, ◌-◌, ◌∷◌, length, min, nat_le};
ghost use Rattle.forms.specs.declared.fault.What.TheVariants as Limits;
ghost use Rattle.forms.specs.Grammar.{item};
ghost use Rattle.protocol_syntax.specs.declared.limits.TheConstants.{MAX_SECTIONS, MAX_LETTERS};
ghost use Rattle.forms.specs.Symbol.{source_of};
ghost use Rattle.forms.specs.Reading.{IsRead};
ghost use Rattle.protocol_syntax.specs.Grammar.{kind, letters_of, section};
ghost use Rattle.protocol_syntax.specs.private.Parts.{all_sections, letters_behind};

use crate::limits::{MAX_LETTERS, MAX_SECTIONS};
use crate::protocol::{Kind, SectionText};
use forms::{
    AnyName, BRACE_LEFT, BRACE_RIGHT, Behind, Ended, Form, Item, Items, Keyword, Means, Name,
    NonEmpty, Only, Or, Sign, Source, Symbol, SyntaxFault, Then, UpTo, What, read_many, with_first,
};
use sequence::Sequence;

const COMMON_KIND: Or<Means<Kind>, Or<Means<Kind>, Or<Means<Kind>, Means<Kind>>>> = Or(
    Means(Symbol::Reserved(Keyword::Cell), Kind::Cell),
    Or(
        Means(Symbol::Reserved(Keyword::Array), Kind::Array),
        Or(
            Means(Symbol::Reserved(Keyword::Channel), Kind::Channel),
            Means(Symbol::Reserved(Keyword::Stack), Kind::Stack),
        ),
    ),
);

/// The kind of channels that lose.
const LOSSY_KIND: Behind<Means<Kind>> = Behind(
    Sign(Symbol::Reserved(Keyword::Lossy)),
    Means(Symbol::Reserved(Keyword::Channel), Kind::LossyChannel),
);

/// The kind of a section.
#[derive(Clone, Copy)]
struct SectionKind {
    language: u32,
}

impl Form for SectionKind {
    type Meaning = Kind;

    ghost grammar = { λ x. kind x.language };

    fn opens(&self, source: &Source<'_>, at: usize) -> bool {
        let lossy = Only {
            allowed: 2 <= self.language,
            form: LOSSY_KIND,
        };
        Or(COMMON_KIND, lossy).opens(source, at)
    }

    fn read(&self, source: &Source<'_>, at: &mut usize) -> Result<Kind, SyntaxFault> {
        let lossy = Only {
            allowed: 2 <= self.language,
            form: LOSSY_KIND,
        };
        Or(COMMON_KIND, lossy).read(source, at)
    }
}

/// A section of a text of this language, where the earlier sections have so many letters together.
#[derive(Clone, Copy)]
pub struct Section {
    pub language: u32,
    pub used: usize,
}

impl Form for Section {
    type Meaning = SectionText;

    ghost grammar = { λ x. section x.language x.used };

    fn opens(&self, source: &Source<'_>, at: usize) -> bool {
        let kind = SectionKind {
            language: self.language,
        };
        kind.opens(source, at)
    }

    fn read(&self, source: &Source<'_>, at: &mut usize) -> Result<SectionText, SyntaxFault> {
        let kind = SectionKind {
            language: self.language,
        };
        let letters = Letters { used: self.used };
        let body = Ended(Behind(BRACE_LEFT, letters), BRACE_RIGHT);
        let parts = Then(Then(kind, AnyName), body).read(source, at)?;
        let ((kind, name), letters) = parts;
        Ok(SectionText {
            kind,
            name,
            letters,
        })
    }
}

/// The letters of a section, where the earlier sections have so many together.
#[derive(Clone, Copy)]
struct Letters {
    used: usize,
}

impl Form for Letters {
    type Meaning = Sequence<Name>;

    ghost grammar = { λ x. letters_behind x.used };

    fn opens(&self, source: &Source<'_>, at: usize) -> bool {
        AnyName.opens(source, at)
    }

    fn read(&self, source: &Source<'_>, at: &mut usize) -> Result<Sequence<Name>, SyntaxFault> {
        let one = Item {
            full: MAX_LETTERS <= self.used,
            what: What::Letters,
            form: AnyName,
        };
        let others = UpTo {
            limit: (MAX_LETTERS - 1).saturating_sub(self.used),
            what: What::Letters,
            form: AnyName,
        };
        NonEmpty(one, others).read(source, at)
    }
}

/// The sections behind the first, in a text of this language.
#[derive(Clone, Copy)]
pub struct MoreSections<'a> {
    pub language: u32,
    pub first: &'a SectionText,
}

impl<'a> Items for MoreSections<'a> {
    type Item = SectionText;

    ghost next = { λ x before. item (nat_le (MAX_SECTIONS - 1) (length before)) Limits.Sections
        (section x.language (letters_of (x.first.now ∷ before))) };

    fn opens_next(&self, _before: &[SectionText], source: &Source<'_>, at: usize) -> bool {
        let kind = SectionKind {
            language: self.language,
        };
        kind.opens(source, at)
    }

    fn read_next(
        &self,
        before: &[SectionText],
        source: &Source<'_>,
        at: &mut usize,
    ) -> Result<SectionText, SyntaxFault> {
        let used = used_letters(before)
            .saturating_add(self.first.letters.len())
            .min(MAX_LETTERS);
        let next = Item {
            full: MAX_SECTIONS - 1 <= before.len(),
            what: What::Sections,
            form: Section {
                language: self.language,
                used,
            },
        };
        next.read(source, at)
    }
}

/// Reads the sections of a text of this language.
pub fn sections(
    language: u32,
    source: &Source<'_>,
    at: &mut usize,
) -> Result<Sequence<SectionText>, SyntaxFault>
    ensures { IsRead (all_sections language) (source_of source.now.text.now source.now.tokens.now) at.old at.new result }
{
    let one = Section { language, used: 0 };
    let first = one.read(source, at)?;
    let others = MoreSections {
        language,
        first: &first,
    };
    let more = read_many(&others, source, at)?;
    with_first(first, more.into_vec())
}

/// How many letters the sections have together, as far as the limit cares.
fn used_letters(sections: &[SectionText]) -> usize
    ensures { result ≡ min (letters_of sections.now) MAX_LETTERS }
{
    match sections {
        [] => 0,
        [section, others @ ..] => used_letters(others)
            .saturating_add(section.letters.len())
            .min(MAX_LETTERS),
    }
}
