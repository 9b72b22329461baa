//! The lines of certificates.
//! Each is made of the parts of which `specs/` says it.

ghost use Rattle.std.specs.Prelude.{IfOk};
ghost use Rattle.lines.specs.Reading.{IsReading};
ghost use Rattle.certificate.specs.Lines.{line_at};
ghost use Rattle.certificate.specs.declared.said.Said.TheVariants as S;

use crate::alphabet::{Alphabet, Places};
use crate::configurations::{Configurations, Rules};
use crate::said::{Kind, Place, Said};
use crate::words::{Letter, Name};
use lines::{Case, Cut, Fields, Form, Just, Means, Meant, NoLine, Number, Numbered};
use protocol_model::Configuration;
use sequence::Sequence;
use std::alloc::{AllocError, Global};
use std::marker::PhantomData;

/// A state, or an index of a letter.
const STATE: Number = Number { limit: 1_000_000 };

/// The number of states.
const COUNT: Number = Number { limit: 1_000_001 };

#[derive(Drop)]
struct SaysTitle;

impl Meant for SaysTitle {
    type From = (u32, Kind);

    type To = Said;

    ghost means = { λ _ p. S.Title p.0 p.1 };

    fn meant(&self, (version, kind): (u32, Kind)) -> Said {
        Said::Title(version, kind)
    }
}

#[derive(Drop)]
struct SaysLetter;

impl Meant for SaysLetter {
    type From = u32;

    type To = Said;

    ghost means = { λ _ x. S.Letter x };

    fn meant(&self, letter: u32) -> Said {
        Said::Letter(letter)
    }
}

#[derive(Drop)]
struct SaysStates;

impl Meant for SaysStates {
    type From = u32;

    type To = Said;

    ghost means = { λ _ x. S.States x };

    fn meant(&self, count: u32) -> Said {
        Said::States(count)
    }
}

#[derive(Drop)]
struct SaysFinal;

impl Meant for SaysFinal {
    type From = u32;

    type To = Said;

    ghost means = { λ _ x. S.Final x };

    fn meant(&self, state: u32) -> Said {
        Said::Final(state)
    }
}

#[derive(Drop)]
struct SaysEdge;

impl Meant for SaysEdge {
    type From = (u32, (u32, u32));

    type To = Said;

    ghost means = { λ _ p. S.Edge p.0 p.1.0 p.1.1 };

    fn meant(&self, (from, (letter, to)): (u32, (u32, u32))) -> Said {
        Said::Edge(from, letter, to)
    }
}

#[derive(Drop)]
struct SaysEdges;

impl Meant for SaysEdges {
    type From = (u32, (u32, Sequence<u32>));

    type To = Said;

    ghost means = { λ _ p. S.Edges p.0 p.1.0 p.1.1 };

    fn meant(&self, (from, (to, indices)): (u32, (u32, Sequence<u32>))) -> Said {
        Said::Edges(from, to, indices)
    }
}

#[derive(Drop)]
struct SaysEnd;

impl Meant for SaysEnd {
    type From = ();

    type To = Said;

    ghost means = { λ _ nothing. S.End };

    fn meant(&self, _from: ()) -> Said {
        Said::End
    }
}

#[derive(Drop)]
struct SaysStart;

impl Meant for SaysStart {
    type From = Configuration;

    type To = Said;

    ghost means = { λ _ x. S.Start x };

    fn meant(&self, parts: Configuration) -> Said {
        Said::Start(parts)
    }
}

#[derive(Drop)]
struct SaysStep;

impl Meant for SaysStep {
    type From = (u32, Configuration);

    type To = Said;

    ghost means = { λ _ p. S.Step p.0 p.1 };

    fn meant(&self, (rule, parts): (u32, Configuration)) -> Said {
        Said::Step(rule, parts)
    }
}

/// What the line says at this place.
pub fn read_line<'a>(
    alloc: Global,
    alphabet: &'a Alphabet<'a>,
    places: &'a Places,
    place: Place,
    line: &[u8],
) -> Result<Option<Said>, AllocError>
    ensures { IfOk result (IsReading (line_at alphabet.now place) line.now) }
{
    let letter = Letter(alphabet, places);
    let configuration = Configurations(alphabet);
    let states = Case(b"states ", Means(COUNT, SaysStates), NoLine(PhantomData));
    let end = Means(Just(b"end", (), NoLine(PhantomData)), SaysEnd);
    match place {
        Place::Title => {
            let unknown = Just(b"unknown", Kind::Unknown, NoLine(PhantomData));
            let kind = Just(b"safe", Kind::Safe, Just(b"unsafe", Kind::Unsafe, unknown));
            let fields = Cut(b' ', Number { limit: 3 }, kind);
            let title = Case(b"armc ", fields, NoLine(PhantomData));
            Means(title, SaysTitle).read(alloc, line)
        }
        Place::States => states.read(alloc, line),
        Place::Letters => { Case(b"letter ", Means(letter, SaysLetter), states).read(alloc, line) }
        Place::NamedEdges => {
            let others = Case(b"final ", Means(STATE, SaysFinal), end);
            let edge = Cut(b' ', STATE, Cut(b' ', letter, STATE));
            Case(b"edge ", Means(edge, SaysEdge), others).read(alloc, line)
        }
        Place::IndexedEdges => {
            let others = Case(b"final ", Means(STATE, SaysFinal), end);
            let edge = Cut(b' ', STATE, Cut(b' ', STATE, Fields(b' ', STATE)));
            Case(b"edge ", Means(edge, SaysEdges), others).read(alloc, line)
        }
        Place::Start => {
            let start = Means(configuration, SaysStart);
            Case(b"start ", start, NoLine(PhantomData)).read(alloc, line)
        }
        Place::Steps => {
            let rule = Numbered(Rules(alphabet), Name);
            let step = Means(Cut(b' ', rule, configuration), SaysStep);
            Case(b"step ", step, end).read(alloc, line)
        }
    }
}
