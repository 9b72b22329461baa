//! The certificates that texts mean.
//! A text is read in one pass, line by line; time is linear in the text, up to the place of each edge among those of its state.

ghost use Rattle.std.specs.Prelude.{◌≡◌, ◌≢◌, ◌↔◌, IfErr, IfOk};
ghost use Rattle.word_automata.specs.Automaton.{IsValid};
ghost use Rattle.lines.specs.declared.fault.Fault.TheVariants.{Wrong};
ghost use Rattle.certificate.specs.declared.fault.CertFault.TheVariants.{Memory};
ghost use Rattle.certificate.specs.declared.safe.Certificate.{Certificate};
ghost use Rattle.certificate.specs.Faults.{HasFault, text_fault};
ghost use Rattle.certificate.specs.Meaning.{IsCertificateOf};
ghost use Rattle.certificate.specs.private.Kept.{IsBuiltFrom};
ghost use Rattle.certificate.specs.OneReading.{MeaningIsDetermined, FaultIsDetermined, FaultExcludesMeaning};

use crate::alphabet::Alphabet;
use crate::fault::CertFault;
use crate::reading::{Certificates, Reading};
use crate::said::{Place, What};
use lines::{Fault, read_text};
use protocol_model::{Configuration, Run, System};
use sequence::Sequence;
use std::alloc::Global;
use word_automata::{Dfa, DfaBuilder};

/// What a certificate is.
#[derive(Drop)]
pub enum Certificate {
    /// An automaton that is to prove a system safe.
    Automaton(Dfa),
    /// A run that is to reach a bad configuration.
    BadRun(Run),
}

/// The certificate that a text means for the system, or the fault of the first line that has one, with the line's number. Within a
/// line the faults come in this order: it is cut short, it has another version or nothing to verify, its layout is none that may stand
/// there, it says too many states, it names what the system does not have, it names a letter again, a state or an index is out of range,
/// an edge is a second one. `Memory`: there is not enough memory.
pub fn read(alloc: Global, text: &[u8], system: &System) -> Result<Certificate, CertFault>
    ensures found { IfOk result (λ found. (c : Certificate) → IsCertificateOf system.now text.now c ↔ (found ≡ c)) }
    ensures fault { IfErr result (λ fault. fault ≢ Memory → HasFault system.now text.now fault) }
    ensures refused { (c : Certificate) → IsCertificateOf system.now text.now c → IfErr result (λ fault. fault ≡ Memory) }
{
    let alphabet = Alphabet::new(alloc, system)?;
    let places = alphabet.places(alloc)?;
    let start = Reading {
        place: Place::Title,
        letters: Vec::new(alloc),
        builder: DfaBuilder::new(alloc, alphabet.size()),
        first: Configuration {
            lists: Sequence::from_vec(Vec::new(alloc)),
        },
        steps: Vec::new(alloc),
    };
    match read_text(alloc, &Certificates(&alphabet, &places), start, text) {
        Ok(read) => Ok(certificate_of(read)),
        Err(fault) => Err(cert_fault(fault)),
    }
}

/// The certificate of the lines that were read.
fn certificate_of(read: Reading) -> Certificate
    ensures { IsBuiltFrom read result }
{
    match read.place {
        Place::Steps => Certificate::BadRun(Run {
            first: read.first,
            steps: Sequence::from_vec(read.steps),
        }),
        _ => Certificate::Automaton(finished(read.builder)),
    }
}

/// The fault of a certificate that a fault of its text is.
fn cert_fault(fault: Fault<What>) -> CertFault
    ensures { text_fault result ≡ fault }
{
    match fault {
        Fault::Truncated { line } => CertFault::Truncated { line },
        Fault::BadLine { line } => CertFault::BadLine { line },
        Fault::Wrong { what, line } => wrong(what, line),
        Fault::Memory => CertFault::Memory,
    }
}

/// This is wrong with the line of this number.
fn wrong(what: What, line: u64) -> CertFault
    ensures { text_fault result ≡ Wrong what line }
{
    match what {
        What::Version => CertFault::Version { line },
        What::NothingToVerify => CertFault::NothingToVerify { line },
        What::TooMany => CertFault::TooMany { line },
        What::UnknownName => CertFault::UnknownName { line },
        What::TwoLetters => CertFault::TwoLetters { line },
        What::OutOfRange => CertFault::OutOfRange { line },
        What::TwoEdges => CertFault::TwoEdges { line },
    }
}

/// A text means at most one certificate or has at most one first fault, and never both.
pub fn one_reading()
    ensures meaning { MeaningIsDetermined }
    ensures fault { FaultIsDetermined }
    ensures either { FaultExcludesMeaning }
{}

/// The automaton that was built. Its states are counted so that it is known to be valid.
fn finished(builder: DfaBuilder) -> Dfa
    ensures same { result ≡ builder }
    ensures valid { IsValid result }
{
    let automaton = builder.finish();
    let _count = automaton.states();
    automaton
}
