//! The sections of one row as states. From the last section to the first each adds its states in front of those of the later ones; time is
//! linear in the states and edges, but for the pattern of a cell, which is tried on each letter.

ghost use Rattle.std.specs.Prelude.{◌≡◌, ◌&&◌, ◌<◌, ◌≤◌, ◌+◌, [], true, false, IfOk, length, option_copied};
ghost use Rattle.protocol_syntax.specs.declared.limits.TheConstants.{MAX_LETTERS, MAX_SECTIONS};
ghost use Rattle.protocol_model.specs.System.{letter_count, total_letters};
ghost use Rattle.protocol_model.specs.Patterns.{has_any_length, list_fits};
ghost use Rattle.section_patterns.specs.private.Languages.{AcceptsFrom, IsAdded};
ghost use Rattle.section_patterns.specs.private.Lists.{BeginsWithList, IsBehind, IsRest, HasPatternOf, HasPatternsOf, part_matches, pattern_for};

use crate::letters::single_letters;
use crate::patterns::add_atoms;
use crate::states::{add_loop, add_step};
use protocol_model::{Pattern, Row, Section};
use std::alloc::{AllocError, Global};
use word_automata::NfaBuilder;

/// Adds states that accept the words of the sections, the first of which has this number and offset, where the row matches their lists.
pub(crate) fn add_sections(
    alloc: Global,
    builder: &mut NfaBuilder,
    row: &Row,
    sections: &[Section],
    number: u32,
    offset: u32,
    separator: u32,
) -> Result<usize, AllocError>
    requires numbers { number + length sections.now ≤ MAX_SECTIONS }
    requires patterns { HasPatternsOf row.now.parts number sections.now }
    requires letters { offset + total_letters sections.now ≤ separator }
    requires limit { separator ≤ MAX_LETTERS }
    requires separator { separator < builder.old.letters }
    ensures { IfOk result (λ state. IsAdded builder.old builder.new state (IsRest row.now.parts number offset separator sections.now)) }
{
    match sections {
        [] => add_end(builder),
        [section, later @ ..] => {
            let count = section.letter_count();
            let behind = add_sections(
                alloc,
                builder,
                row,
                later,
                number + 1,
                offset + count,
                separator,
            )?;
            let next = add_separator(builder, later, separator, behind)?;
            let state = add_section(
                alloc,
                builder,
                section,
                pattern_of(row, number),
                offset,
                next,
            )?;
            Ok(state)
        }
    }
}

/// Adds a state that accepts the empty word alone.
fn add_end(builder: &mut NfaBuilder) -> Result<usize, AllocError>
    ensures { IfOk result (λ state. IsAdded builder.old builder.new state (λ w. w ≡ [])) }
{
    let state = builder.states();
    builder.state(true)?;
    Ok(state)
}

/// Adds a state that accepts the separator and then what the state `next` accepts; where no section is later, this is the state `next`.
fn add_separator(
    builder: &mut NfaBuilder,
    later: &[Section],
    separator: u32,
    next: usize,
) -> Result<usize, AllocError>
    requires next { next < length builder.old.states }
    requires separator { separator < builder.old.letters }
    ensures { IfOk result (λ state. IsAdded builder.old builder.new state (IsBehind separator later.now (AcceptsFrom builder.old next))) }
{
    match later {
        [] => Ok(next),
        [_, ..] => add_step(builder, &[separator], next),
    }
}

/// Adds states that accept a list of the section which the pattern, if there is one, matches, each letter raised by the offset, and then
/// what the state `next` accepts.
fn add_section(
    alloc: Global,
    builder: &mut NfaBuilder,
    section: &Section,
    pattern: Option<&Pattern>,
    offset: u32,
    next: usize,
) -> Result<usize, AllocError>
    requires next { next < length builder.old.states }
    requires pattern { HasPatternOf (option_copied pattern) section.now }
    requires letters { offset + letter_count section.now ≤ MAX_LETTERS }
    requires fits { offset + letter_count section.now ≤ builder.old.letters }
    ensures { IfOk result (λ state. IsAdded builder.old builder.new state
        (BeginsWithList (λ list. list_fits section.now list && part_matches (option_copied pattern.entry) list) offset
        (AcceptsFrom builder.old next))) }
{
    if section.has_any_length() {
        add_list(alloc, builder, section, pattern, offset, next)
    } else {
        add_cell(alloc, builder, section, pattern, offset, next)
    }
}

/// The same where the section is a cell.
fn add_cell(
    alloc: Global,
    builder: &mut NfaBuilder,
    section: &Section,
    pattern: Option<&Pattern>,
    offset: u32,
    next: usize,
) -> Result<usize, AllocError>
    requires next { next < length builder.old.states }
    requires kind { has_any_length section.now.kind ≡ false }
    requires pattern { HasPatternOf (option_copied pattern) section.now }
    requires letters { offset + letter_count section.now ≤ MAX_LETTERS }
    requires fits { offset + letter_count section.now ≤ builder.old.letters }
    ensures { IfOk result (λ state. IsAdded builder.old builder.new state
        (BeginsWithList (λ list. list_fits section.now list && part_matches (option_copied pattern.entry) list) offset
        (AcceptsFrom builder.old next))) }
{
    let _room = builder.letters();
    let count = section.letter_count();
    let letters = single_letters(alloc, pattern, count, offset)?;
    add_step(builder, letters.as_slice(), next)
}

/// The same where the lists of the section have any length.
fn add_list(
    alloc: Global,
    builder: &mut NfaBuilder,
    section: &Section,
    pattern: Option<&Pattern>,
    offset: u32,
    next: usize,
) -> Result<usize, AllocError>
    requires next { next < length builder.old.states }
    requires kind { has_any_length section.now.kind ≡ true }
    requires pattern { HasPatternOf (option_copied pattern) section.now }
    requires letters { offset + letter_count section.now ≤ MAX_LETTERS }
    requires fits { offset + letter_count section.now ≤ builder.old.letters }
    ensures { IfOk result (λ state. IsAdded builder.old builder.new state
        (BeginsWithList (λ list. list_fits section.now list && part_matches (option_copied pattern.entry) list) offset
        (AcceptsFrom builder.old next))) }
{
    let _room = builder.letters();
    let count = section.letter_count();
    match pattern {
        Some(pattern) => {
            let atoms = pattern.atoms.as_slice();
            add_atoms(alloc, builder, atoms, offset, count, next)
        }
        None => {
            let letters = single_letters(alloc, None, count, offset)?;
            add_loop(builder, letters.as_slice(), next)
        }
    }
}

/// The pattern that the row has for the section of this number, if it names the section.
fn pattern_of(row: &Row, number: u32) -> Option<&Pattern>
    ensures { option_copied result ≡ pattern_for row.now.parts number }
{
    'parts: for part in row.parts.as_slice() {
        if part.0 == number {
            return Some(&part.1);
        }
    }
    None
}
