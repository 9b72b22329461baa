//! Certificates, line by line.
//! Each line is added to what was read before it; an edge is compared with those of the earlier lines by its place in the automaton.

ghost use Rattle.std.specs.Prelude.{◌≡◌, ◌==◌, ◌<◌, [], All, IfOk, length, nat_lt, ◌&&◌};
ghost use Rattle.std.specs.List.{list_all, list_any};
ghost use Rattle.protocol_model.specs.Patterns.{fits};
ghost use Rattle.protocol_model.specs.System.{SystemData};
ghost use Rattle.lines.specs.Reading.{HasEffect};
ghost use Rattle.certificate.specs.declared.said.Said.TheVariants as S;
ghost use Rattle.certificate.specs.Stages.{Stage, after_states, certificate, titled, with_edge, with_edges};
ghost use Rattle.certificate.specs.private.Kept.{HasLines, IsKept, IsTitled, Takes};

use crate::alphabet::{Alphabet, Places};
use crate::line_forms::read_line;
use crate::said::{Kind, Place, Said, What};
use lines::{Next, TextForm};
use protocol_model::{Configuration, System};
use protocol_steps::fits;
use sequence::Sequence;
use std::alloc::{AllocError, Global};
use word_automata::{BuildFault, DfaBuilder};

/// The largest number of states of a certificate.
const MAX_STATES: u32 = 1_000_000;

/// What was read.
#[derive(Drop)]
pub struct Reading {
    /// Where the next line stands.
    pub place: Place,
    /// The letters that have lines.
    pub letters: Vec<u32>,
    /// The automaton of the lines on states and edges.
    pub builder: DfaBuilder,
    /// The first configuration of a run.
    pub first: Configuration,
    /// The steps of a run.
    pub steps: Vec<(u32, Configuration)>,
}

/// Certificates for the system of an alphabet.
#[derive(Drop)]
pub struct Certificates<'a>(pub &'a Alphabet<'a>, pub &'a Places);

impl<'a> TextForm for Certificates<'a> {
    type Said = Said;

    type What = What;

    type Read = Reading;

    ghost Stage = { Stage };

    ghost document = { λ x. certificate x.0.now };

    ghost IsAt = { λ x t read. IsKept x.0.now t read };

    fn says(&self, alloc: Global, read: &Reading, line: &[u8]) -> Result<Option<Said>, AllocError> {
        read_line(alloc, self.0, self.1, read.place, line)
    }

    fn take(
        &self,
        alloc: Global,
        read: &mut Reading,
        said: Said,
    ) -> Result<Next<What>, AllocError> {
        match said {
            Said::Title(version, kind) => take_title(read, version, kind),
            Said::Letter(letter) => take_letter(self.0, read, letter),
            Said::States(count) => take_states(alloc, self.0, read, count),
            Said::Final(state) => take_final(read, state),
            Said::Edge(from, letter, to) => add_edge(self.0, read, from, letter, to),
            Said::Edges(from, to, indices) => {
                take_edges(self.0, read, from, to, indices.as_slice())
            }
            Said::End => Ok(Next::End),
            Said::Start(configuration) => take_start(self.0, read, configuration),
            Said::Step(rule, configuration) => take_step(self.0, read, rule, configuration),
        }
    }
}

fn take_title(read: &mut Reading, version: u32, kind: Kind) -> Result<Next<What>, AllocError>
    ensures { (s : SystemData) → Takes s read.old (S.Title version kind) result read.new }
{
    match titled(version, kind) {
        Ok(place) => {
            read.place = place;
            Ok(Next::More)
        }
        Err(what) => Ok(Next::Fails(what)),
    }
}

/// Where the next line stands after a first line, or what is wrong with that line.
fn titled(version: u32, kind: Kind) -> Result<Place, What>
    ensures { IsTitled (titled version kind) result }
{
    match kind {
        Kind::Safe => match version {
            1 => Ok(Place::States),
            2 => Ok(Place::Letters),
            _ => Err(What::Version),
        },
        Kind::Unsafe => match version {
            1 => Ok(Place::Start),
            _ => Err(What::Version),
        },
        Kind::Unknown => match version {
            1 => Err(What::NothingToVerify),
            _ => Err(What::Version),
        },
    }
}

fn take_letter(
    alphabet: &Alphabet<'_>,
    read: &mut Reading,
    letter: u32,
) -> Result<Next<What>, AllocError>
    ensures { Takes alphabet.now read.old (S.Letter letter) result read.new }
{
    let size = alphabet.size();
    if letter >= size {
        return Ok(Next::Fails(What::UnknownName));
    }
    if is_among(read.letters.as_slice(), letter) {
        return Ok(Next::Fails(What::TwoLetters));
    }
    read.letters.push(letter)?;
    Ok(Next::More)
}

fn is_among(letters: &[u32], letter: u32) -> bool
    ensures { result ≡ list_any (λ b. b == letter) letters.now }
{
    letters.iter().any(|other| *other == letter)
}

fn take_states(
    alloc: Global,
    alphabet: &Alphabet<'_>,
    read: &mut Reading,
    count: u32,
) -> Result<Next<What>, AllocError>
    ensures { Takes alphabet.now read.old (S.States count) result read.new }
{
    if count > MAX_STATES {
        return Ok(Next::Fails(What::TooMany));
    }
    let size = alphabet.size();
    read.builder = with_states(alloc, size, count as usize)?;
    read.place = after_states(read.place);
    Ok(Next::More)
}

/// An automaton with so many letters and states, and no edge.
fn with_states(alloc: Global, letters: u32, count: usize) -> Result<DfaBuilder, AllocError>
    ensures { IfOk result (HasLines letters count []) }
{
    let mut builder = DfaBuilder::new(alloc, letters);
    'states: for _ in 0..count {
        builder.state(false)?;
    }
    Ok(builder)
}

/// Where the next line stands after the number of states.
fn after_states(place: Place) -> Place
    ensures { result ≡ after_states place }
{
    match place {
        Place::Letters => Place::IndexedEdges,
        _ => Place::NamedEdges,
    }
}

fn take_final(read: &mut Reading, state: u32) -> Result<Next<What>, AllocError>
    ensures { (s : SystemData) → Takes s read.old (S.Final state) result read.new }
{
    match read.builder.accept(state as usize) {
        Ok(()) => Ok(Next::More),
        Err(_) => Ok(Next::Fails(What::OutOfRange)),
    }
}

fn add_edge(
    alphabet: &Alphabet<'_>,
    read: &mut Reading,
    from: u32,
    letter: u32,
    to: u32,
) -> Result<Next<What>, AllocError>
    ensures kept { (t : Stage) → IsKept alphabet.now t read.old
        → IfOk result (HasEffect (IsKept alphabet.now) (with_edge alphabet.now t from letter to) t read.new) }
    ensures letters { read.new.letters ≡ read.old.letters }
{
    let size = alphabet.size();
    if letter >= size {
        return Ok(Next::Fails(What::UnknownName));
    }
    match read.builder.edge(from as usize, letter, to as usize) {
        Ok(()) => Ok(Next::More),
        Err(BuildFault::OutOfRange) => Ok(Next::Fails(What::OutOfRange)),
        Err(BuildFault::TwoEdges) => Ok(Next::Fails(What::TwoEdges)),
        Err(BuildFault::Memory) => Err(AllocError),
    }
}

fn are_below(indices: &[u32], bound: usize) -> bool
    ensures { result ≡ list_all (λ i. nat_lt i bound) indices.now }
{
    indices.iter().all(|index| (*index as usize) < bound)
}

fn take_edges(
    alphabet: &Alphabet<'_>,
    read: &mut Reading,
    from: u32,
    to: u32,
    indices: &[u32],
) -> Result<Next<What>, AllocError>
    ensures { Takes alphabet.now read.old (S.Edges from to indices.now) result read.new }
{
    let bound = read.letters.as_slice().len();
    let states = read.builder.states();
    if from as usize >= states || to as usize >= states || !are_below(indices, bound) {
        return Ok(Next::Fails(What::OutOfRange));
    }
    add_edges(alphabet, read, from, to, indices)
}

fn add_edges(
    alphabet: &Alphabet<'_>,
    read: &mut Reading,
    from: u32,
    to: u32,
    indices: &[u32],
) -> Result<Next<What>, AllocError>
    requires { All (λ i. i < length read.old.letters.items) indices.now }
    ensures { (t : Stage) → IsKept alphabet.now t read.old
        → IfOk result (HasEffect (IsKept alphabet.now) (with_edges alphabet.now t from to indices.now) t read.new) }
{
    'indices: for index in indices {
        let letter = read.letters[*index as usize];
        match add_edge(alphabet, read, from, letter, to)? {
            Next::More => {}
            other => return Ok(other),
        }
    }
    Ok(Next::More)
}

fn take_start(
    alphabet: &Alphabet<'_>,
    read: &mut Reading,
    configuration: Configuration,
) -> Result<Next<What>, AllocError>
    ensures { Takes alphabet.now read.old (S.Start configuration) result read.new }
{
    if !fits(alphabet.system(), &configuration) {
        return Ok(Next::Fails(What::UnknownName));
    }
    read.place = Place::Steps;
    read.first = configuration;
    Ok(Next::More)
}

fn take_step(
    alphabet: &Alphabet<'_>,
    read: &mut Reading,
    rule: u32,
    configuration: Configuration,
) -> Result<Next<What>, AllocError>
    ensures { Takes alphabet.now read.old (S.Step rule configuration) result read.new }
{
    if !is_step(alphabet.system(), rule, &configuration) {
        return Ok(Next::Fails(What::UnknownName));
    }
    read.steps.push((rule, configuration))?;
    Ok(Next::More)
}

/// Whether the rule is there, and the configuration fits.
fn is_step(system: &System, rule: u32, configuration: &Configuration) -> bool
    ensures { result ≡ (nat_lt rule (length system.now.rules) && fits system.now configuration.now) }
{
    (rule as usize) < system.rules.len() && fits(system, configuration)
}
