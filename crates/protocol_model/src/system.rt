//! The data of systems, configurations and runs.
//! A system is seen as its data, with its validity as the invariant: whoever has one knows that numbers are in range and names distinct.

use protocol_syntax::{Kind, Many};
use sequence::{Sequence, Text};
use std::marker::Model;

/// A section of every configuration: its name, its kind and its letters, which are numbered in this order.
#[derive(Drop)]
pub struct Section {
    /// The name.
    pub name: Text,
    /// What the section holds and which moves belong to it.
    pub kind: Kind,
    /// The names of the letters; a letter's number is its index.
    pub letters: Sequence<Text>,
}

/// One item of a pattern: a set of letters of the section, and how often a letter of it stands.
#[derive(Drop)]
pub struct Atom {
    /// The letters, by their numbers in the section.
    pub letters: Sequence<u32>,
    /// Once, none or more times, or once or more.
    pub many: Many,
}

/// A pattern of the lists of one section. Without an atom it matches the empty list alone.
#[derive(Drop)]
pub struct Pattern {
    /// The atoms in their order.
    pub atoms: Sequence<Atom>,
}

/// A row of patterns for some of the sections; a section that it does not name may hold any list.
#[derive(Drop)]
pub struct Row {
    /// The number of a section and its pattern, for each section that the row names.
    pub parts: Sequence<(u32, Pattern)>,
}

/// A guard of a move, with the numbers of letters in the section.
pub type Guard = protocol_syntax::Guard<u32>;

/// What a rule does to one section, with the numbers of letters in this section.
pub type Move = protocol_syntax::Move<u32, Sequence<u32>>;

/// A rule: its name, and a move for each section that it names. Every other section stays.
#[derive(Drop)]
pub struct Rule {
    /// The name.
    pub name: Text,
    /// The number of a section and its move, for each section that the rule names.
    pub moves: Sequence<(u32, Move)>,
}

/// A protocol with its names replaced by numbers. Every value is valid: numbers are in range, names are distinct,
/// and the limits of the language hold.
#[derive(Drop)]
pub struct System {
    /// The protocol's name.
    pub name: Text,
    /// The sections, which are numbered in this order.
    pub sections: Sequence<Section>,
    /// A configuration is initial where one of these rows matches it.
    pub init: Sequence<Row>,
    /// The rules, which are numbered in this order.
    pub rules: Sequence<Rule>,
    /// A configuration is bad where one of these rows matches it.
    pub bad: Sequence<Row>,
}

impl Model for System {
    ghost use Rattle.protocol_model.specs.System.{SystemData, data_of, IsValid};

    ghost Value = { SystemData };

    ghost view = { λ s. data_of s.name s.sections s.init s.rules s.bad };

    ghost invariant = { λ s. IsValid (data_of s.name s.sections s.init s.rules s.bad) };
}

/// One list of letter numbers for each section.
#[derive(Drop)]
pub struct Configuration {
    /// The lists, in the order of the sections; letters are numbers in their section.
    pub lists: Sequence<Sequence<u32>>,
}

/// A first configuration, and steps from it: each the number of a rule and the configuration after it.
#[derive(Drop)]
pub struct Run {
    /// The configuration in which the run begins.
    pub first: Configuration,
    /// For each step the rule's number and the configuration after it.
    pub steps: Sequence<(u32, Configuration)>,
}
