//! From texts to configurations, by a grammar that is made of the system's sections.
//! Each form reads what it says, with one token of lookahead; time is linear in the tokens, and in a section's letters for each letter.

ghost use Rattle.std.specs.Prelude.{◌≡◌, ◌≢◌, ◌↔◌, IfErr, IfOk, IsTrue};
ghost use Rattle.forms.specs.Grammar.{one_of};
ghost use Rattle.forms.specs.Reading.{IsRead, begins};
ghost use Rattle.forms.specs.Symbol.{source_of};
ghost use Rattle.protocol_model.specs.declared.system.Configuration.{Configuration};
ghost use Rattle.protocol_model.specs.System.{IsValid};
ghost use Rattle.protocol_model.specs.Patterns.{fits, has_any_length};
ghost use Rattle.configuration_words.specs.ConfigurationText.{IsFirstFault, MeansConfiguration, config_fault, configuration, later_part, letters, list_of, one_letter, part, parts};

use crate::fault::ConfigFault;
use forms::{
    COLON, Form, FormOf, Keyword, Many, OneOf, SEMICOLON, Sign, Source, Symbol, SyntaxFault, parse,
    read_each, with_first,
};
use protocol_model::{Configuration, Section, System};
use sequence::Sequence;
use std::alloc::Global;
use std::slice::from_ref;

const EMPTY: Sign = Sign(Symbol::Reserved(Keyword::Empty));

/// A letter of the section, which means its number.
#[derive(Clone, Copy)]
struct Letter<'a>(&'a Section);

impl<'a> Form for Letter<'a> {
    type Meaning = u32;

    ghost grammar = { λ x. one_of x.0.now.letters };

    fn opens(&self, source: &Source<'_>, at: usize) -> bool {
        OneOf(self.0.letters.as_slice()).opens(source, at)
    }

    fn read(&self, source: &Source<'_>, at: &mut usize) -> Result<u32, SyntaxFault> {
        let number = OneOf(self.0.letters.as_slice()).read(source, at)?;
        u32::try_from(number).map_err(|_| SyntaxFault::Memory)
    }
}

/// Letters of the section, of which there is at least one.
#[tactic(auto, unfolding(crate::specs::ConfigurationText::letters, forms::specs::Reading::read_then))]
fn read_letters(
    section: &Section,
    source: &Source<'_>,
    at: &mut usize,
) -> Result<Sequence<u32>, SyntaxFault>
    ensures { IsRead (letters section.now) (source_of source.now.text.now source.now.tokens.now) at.old at.new result }
{
    let first = Letter(section).read(source, at)?;
    let rest = Many(Letter(section)).read(source, at)?;
    with_first(first, rest.into_vec())
}

/// A list of exactly one letter.
#[tactic(auto, unfolding(crate::specs::ConfigurationText::one_letter, forms::specs::Reading::read_then))]
fn read_one_letter(
    section: &Section,
    source: &Source<'_>,
    at: &mut usize,
) -> Result<Sequence<u32>, SyntaxFault>
    ensures { IsRead (one_letter section.now) (source_of source.now.text.now source.now.tokens.now) at.old at.new result }
{
    let letter = Letter(section).read(source, at)?;
    with_first(letter, Vec::new(source.alloc))
}

/// The list of a section.
#[tactic(auto, unfolding(crate::specs::ConfigurationText::list_of, forms::specs::Reading::read_or, forms::specs::Reading::read_then))]
fn read_list(
    section: &Section,
    source: &Source<'_>,
    at: &mut usize,
) -> Result<Sequence<u32>, SyntaxFault>
    ensures { IsRead (list_of (has_any_length section.now.kind) section.now)
        (source_of source.now.text.now source.now.tokens.now) at.old at.new result }
{
    if !section.has_any_length() {
        return read_one_letter(section, source, at);
    }
    if EMPTY.opens(source, *at) {
        EMPTY.read(source, at)?;
        return Ok(Sequence::from_vec(Vec::new(source.alloc)));
    }
    read_letters(section, source, at)
}

/// Whether the token at the index begins the part of the section.
#[tactic(auto, unfolding(crate::specs::ConfigurationText::part))]
fn part_opens(section: &Section, source: &Source<'_>, at: usize) -> bool
    ensures { result ≡ begins (part section.now) (source_of source.now.text.now source.now.tokens.now) at }
{
    OneOf(from_ref(&section.name)).opens(source, at)
}

/// The part of a section.
#[tactic(auto, unfolding(crate::specs::ConfigurationText::part, forms::specs::Reading::read_then))]
fn read_part(
    section: &Section,
    source: &Source<'_>,
    at: &mut usize,
) -> Result<Sequence<u32>, SyntaxFault>
    ensures { IsRead (part section.now) (source_of source.now.text.now source.now.tokens.now) at.old at.new result }
{
    OneOf(from_ref(&section.name)).read(source, at)?;
    COLON.read(source, at)?;
    read_list(section, source, at)
}

/// The parts behind the first.
#[derive(Clone, Copy)]
struct LaterPart;

impl FormOf for LaterPart {
    type Value = Section;

    type Meaning = Sequence<u32>;

    ghost grammar = { λ _ section. later_part section };

    #[tactic(auto, unfolding(crate::specs::ConfigurationText::later_part, forms::specs::Reading::read_then))]
    fn read_for(
        &self,
        section: &Section,
        source: &Source<'_>,
        at: &mut usize,
    ) -> Result<Sequence<u32>, SyntaxFault> {
        SEMICOLON.read(source, at)?;
        read_part(section, source, at)
    }
}

/// The parts of all sections.
#[tactic(auto, unfolding(crate::specs::ConfigurationText::parts, forms::specs::Reading::read_then))]
fn read_parts(
    sections: &[Section],
    source: &Source<'_>,
    at: &mut usize,
) -> Result<Sequence<Sequence<u32>>, SyntaxFault>
    ensures { IsRead (parts sections.now) (source_of source.now.text.now source.now.tokens.now) at.old at.new result }
{
    let Some((section, others)) = sections.split_first() else {
        return Ok(Sequence::from_vec(Vec::new(source.alloc)));
    };
    let list = read_part(section, source, at)?;
    let lists = read_each(&LaterPart, others, source, at)?;
    with_first(list, lists.into_vec())
}

/// A configuration of the system.
#[derive(Clone, Copy)]
struct AnyConfiguration<'a>(&'a System);

impl<'a> Form for AnyConfiguration<'a> {
    type Meaning = Configuration;

    ghost grammar = { λ x. configuration x.0.now.sections };

    #[tactic(auto, unfolding(crate::specs::ConfigurationText::configuration, crate::specs::ConfigurationText::parts))]
    fn opens(&self, source: &Source<'_>, at: usize) -> bool {
        match sections(self.0).first() {
            Some(section) => part_opens(section, source, at),
            None => false,
        }
    }

    #[tactic(auto, unfolding(crate::specs::ConfigurationText::configuration, forms::specs::Reading::read_then))]
    fn read(&self, source: &Source<'_>, at: &mut usize) -> Result<Configuration, SyntaxFault> {
        let lists = read_parts(sections(self.0), source, at)?;
        Ok(Configuration { lists })
    }
}

/// The configuration that the text means: for each section in order its name, a colon, and the names of its letters or `empty`, with a
/// semicolon between neighbours, as `S: a; C: m m`, and white space and comments between tokens.
///
/// `BadByte` is answered where a byte outside a comment begins no token; else `Unexpected` at the first token that stands in no text of
/// a configuration behind the tokens before it, or at the end of the text where it ends too early; `Memory` where there is no memory for
/// the configuration.
pub fn read_configuration(
    alloc: Global,
    system: &System,
    text: &[u8],
) -> Result<Configuration, ConfigFault>
    ensures configuration { IfOk result (λ found. (c : Configuration) → MeansConfiguration system.now text.now c ↔ (found ≡ c)) }
    ensures fits { IfOk result (λ found. IsTrue (fits system.now found)) }
    ensures no_configuration { IfErr result (λ fault. fault ≢ ConfigFault.Memory
        → (c : Configuration) → MeansConfiguration system.now text.now c → ⊥) }
    ensures no_fault { IfOk result (λ _. (fault : ConfigFault) → IsFirstFault system.now text.now fault → ⊥) }
    ensures fault { IfErr result (λ fault. fault ≢ ConfigFault.Memory
        → (other : ConfigFault) → IsFirstFault system.now text.now other ↔ (fault ≡ other)) }
{
    match parse(alloc, &AnyConfiguration(system), text) {
        Ok(found) => Ok(found),
        Err(fault) => Err(config_fault(fault)),
    }
}

/// The fault of a configuration that this fault is. No item of a configuration has a limit.
fn config_fault(fault: SyntaxFault) -> ConfigFault
    ensures { result ≡ config_fault fault }
{
    match fault {
        SyntaxFault::BadByte { place } => ConfigFault::BadByte { place },
        SyntaxFault::Unexpected { place } => ConfigFault::Unexpected { place },
        SyntaxFault::TooMany { place, .. } => ConfigFault::Unexpected { place },
        SyntaxFault::Memory => ConfigFault::Memory,
    }
}

/// The sections of the system, which is valid.
pub(crate) fn sections(system: &System) -> &[Section]
    ensures sections { result.now ≡ system.now.sections }
    ensures valid { IsValid system.now }
{
    system.sections.as_slice()
}
