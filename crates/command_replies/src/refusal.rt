//! How the first fault of a protocol, a text of properties, a configuration or a certificate is told: in one line with its place, what is
//! wrong, and the name or the limit that it is about. A line is made by one format, in time linear in its length.

ghost use Rattle.std.specs.Prelude.{◌≡◌, ◌≢◌, ◌++◌, IfOk, OnOk};
ghost use Rattle.command_replies.specs.Refusal.{located, refusal_text, syntax_text, model_text, what_word};
ghost use Rattle.command_replies.specs.Refusal.{configuration_refusal_text, in_certificate, certificate_refusal_text};
ghost use Rattle.command_replies.specs.Line.{line};

use certificate::CertFault;
use configuration_words::ConfigFault;
use protocol_lexer::Place;
use protocol_model::ModelFault;
use protocol_syntax::{Name, SyntaxFault, What};
use std::alloc::{AllocError, Global};

/// The first fault of the text of a protocol, or of a text of properties.
#[derive(Drop)]
pub enum Refusal {
    /// Of its tokens, its grammar or its limits.
    Syntax(SyntaxFault),
    /// Of its names.
    Model(ModelFault),
}

// What there is too much of.
fn what_word(what: What) -> &'static str
    ensures { result.now ≡ what_word what }
{
    match what {
        What::NameBytes => "name bytes",
        What::Sections => "sections",
        What::Letters => "letters",
        What::InitRows => "init rows",
        What::Rules => "rules",
        What::BadRows => "bad rows",
        What::Atoms => "atoms",
        What::Guards => "guards",
        What::Pushed => "pushed letters",
    }
}

// The line of a fault at this place of a text of this kind, told by some words and a name or a word after them.
fn line_at(
    alloc: Global,
    kind: &str,
    place: Place,
    words: &str,
    name: &str,
) -> Result<Vec<u8>, AllocError>
    ensures { IfOk result (λ made. made.items ≡ line (located kind.now place (words.now ++ name.now))) }
{
    let Place { line, column } = place;
    let made = format!(in alloc; "armc: {kind}: line {line} column {column}: {words}{name}\n")?;
    Ok(made.into_bytes())
}

// The line of a fault at this name of a text of this kind.
fn line_at_name(alloc: Global, kind: &str, words: &str, name: &Name) -> Result<Vec<u8>, AllocError>
    ensures { IfOk result (λ made. made.items ≡ line (located kind.now name.now.place (words.now ++ name.now.text))) }
{
    line_at(alloc, kind, name.place, words, name.text.as_str())
}

// The line of a fault of the grammar.
fn syntax_line(alloc: Global, kind: &str, fault: &SyntaxFault) -> Result<Vec<u8>, AllocError>
    ensures { IfOk result (λ made. made.items ≡ line (syntax_text kind.now fault.now)) }
{
    match fault {
        SyntaxFault::BadByte { place } => line_at(alloc, kind, *place, "bad byte", ""),
        SyntaxFault::Unexpected { place } => line_at(alloc, kind, *place, "unexpected token", ""),
        SyntaxFault::TooMany { what, place } => {
            line_at(alloc, kind, *place, "too many ", what_word(*what))
        }
        SyntaxFault::Memory => Err(AllocError),
    }
}

// The line of a fault of the names.
fn model_line(alloc: Global, kind: &str, fault: &ModelFault) -> Result<Vec<u8>, AllocError>
    ensures { IfOk result (λ made. made.items ≡ line (model_text kind.now fault.now)) }
{
    match fault {
        ModelFault::Duplicate { name } => line_at_name(alloc, kind, "duplicate ", name),
        ModelFault::Unknown { name } => line_at_name(alloc, kind, "unknown ", name),
        ModelFault::TouchedTwice { name } => line_at_name(alloc, kind, "touched twice ", name),
        ModelFault::WrongKind { name } => line_at_name(alloc, kind, "wrong kind ", name),
        ModelFault::Memory => Err(AllocError),
    }
}

/// The line that tells the first fault of a text of this kind. The only error is that memory ran out.
pub fn refusal_line(alloc: Global, kind: &str, refusal: &Refusal) -> Result<Vec<u8>, AllocError>
    ensures { IfOk result (λ made. made.items ≡ line (refusal_text kind.now refusal.now)) }
{
    match refusal {
        Refusal::Syntax(fault) => syntax_line(alloc, kind, fault),
        Refusal::Model(fault) => model_line(alloc, kind, fault),
    }
}

/// The line that tells the first fault of a configuration. The only error is that memory ran out.
pub fn configuration_refusal_line(alloc: Global, fault: &ConfigFault) -> Result<Vec<u8>, AllocError>
    ensures fault { OnOk result (fault.now ≢ ConfigFault.Memory) }
    ensures line { IfOk result (λ made. made.items ≡ line (configuration_refusal_text fault.now)) }
{
    match fault {
        ConfigFault::BadByte { place } => {
            line_at(alloc, "configuration", *place, "bad byte", "")
        }
        ConfigFault::Unexpected { place } => {
            line_at(alloc, "configuration", *place, "unexpected token", "")
        }
        ConfigFault::Memory => Err(AllocError),
    }
}

// The line of a fault of a certificate at the line of this number.
fn fault_at(alloc: Global, number: u64, words: &str) -> Result<Vec<u8>, AllocError>
    ensures { IfOk result (λ made. made.items ≡ line (in_certificate number words.now)) }
{
    let made = format!(in alloc; "armc: certificate: line {number}: {words}\n")?;
    Ok(made.into_bytes())
}

/// The line that tells the first fault of a certificate. The only error is that memory ran out.
pub fn certificate_refusal_line(alloc: Global, fault: &CertFault) -> Result<Vec<u8>, AllocError>
    ensures fault { OnOk result (fault.now ≢ CertFault.Memory) }
    ensures line { IfOk result (λ made. made.items ≡ line (certificate_refusal_text fault.now)) }
{
    match fault {
        CertFault::Version { line } => fault_at(alloc, *line, "version"),
        CertFault::BadLine { line } => fault_at(alloc, *line, "bad line"),
        CertFault::UnknownName { line } => fault_at(alloc, *line, "unknown name"),
        CertFault::OutOfRange { line } => fault_at(alloc, *line, "out of range"),
        CertFault::TwoEdges { line } => fault_at(alloc, *line, "two edges"),
        CertFault::Truncated { line } => fault_at(alloc, *line, "truncated"),
        CertFault::NothingToVerify { line } => fault_at(alloc, *line, "nothing to verify"),
        CertFault::TooMany { line } => fault_at(alloc, *line, "too many states"),
        CertFault::TwoLetters { line } => fault_at(alloc, *line, "two letters"),
        CertFault::Memory => Err(AllocError),
    }
}
