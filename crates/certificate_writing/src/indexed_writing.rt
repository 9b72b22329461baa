//! The text of version 2 of an automaton. The edges of each state are sorted by target, and those to the same state stay in the order of
//! their letters, so that the indices of a line increase. Time is linear in the states, the letters and the text, up to this sorting.

ghost use Rattle.std.specs.Prelude.{◌≡◌, ◌<◌, ◌≤◌, ◌++◌, All, IfOk, OnOk, None, codes, decimal, length, flat_map};
ghost use Rattle.std.specs.List.{range_with_len};
ghost use Rattle.protocol_model.specs.Words.{automata_letters};
ghost use Rattle.certificate.specs.SafeText.{MeansAutomaton};
ghost use Rattle.certificate_writing.specs.IndexedWriting.{indexed_text, used_letters};
ghost use Rattle.certificate_writing.specs.private.IndexedWritingParts.{AreByTarget, AreIndicesOf, before_index, line_start, sorted_text};
ghost use Rattle.certificate_writing.specs.private.IndexedWritingParts.{text_from};

use crate::letter_table::{indices_of, used_letters};
use crate::writing::{opening, push_words};
use certificate::Alphabet;
use itoa::Buffer;
use protocol_model::System;
use std::alloc::{AllocError, Global};
use word_automata::Dfa;

/// The text of version 2 of a certificate that is this automaton: a line for each letter that labels an edge, by letter number, the
/// number of states, the accepting states by increasing number, and one line for each pair of a source and a target with an edge, by
/// source and then by target, with increasing indices of letters. The only error is that memory ran out.
pub fn write_safe2(alloc: Global, system: &System, proof: &Dfa) -> Result<Vec<u8>, AllocError>
    requires letters { proof.now.letters ≡ automata_letters system.now }
    requires limit { length proof.now.states ≤ 1000000 }
    ensures text { IfOk result (λ text. text.items ≡ indexed_text system.now proof.now) }
    ensures meaning { IfOk result (λ text. MeansAutomaton system.now text.items proof.now) }
{
    let _states = proof.states();
    let _rules = system.rules.len();
    let text = indexed_text(alloc, system, proof)?;
    Ok(text)
}

/// The text of version 2 of this automaton.
fn indexed_text(alloc: Global, system: &System, proof: &Dfa) -> Result<Vec<u8>, AllocError>
    requires { proof.now.letters ≡ automata_letters system.now }
    ensures { IfOk result (λ text. text.items ≡ indexed_text system.now proof.now) }
{
    let alphabet = Alphabet::new(alloc, system)?;
    let _states = proof.states();
    let letters = used_letters(alloc, proof)?;
    let indices = indices_of(alloc, letters.as_slice(), proof.letters())?;
    text_by_table(
        alloc,
        &alphabet,
        letters.as_slice(),
        indices.as_slice(),
        proof,
    )
}

/// The text of version 2 of this automaton, whose edges are labelled by these letters, with these indices.
fn text_by_table(
    alloc: Global,
    alphabet: &Alphabet,
    letters: &[u32],
    indices: &[usize],
    proof: &Dfa,
) -> Result<Vec<u8>, AllocError>
    requires alphabet { proof.now.letters ≡ automata_letters alphabet.now }
    requires letters { letters.now ≡ used_letters proof.now }
    requires indices { AreIndicesOf letters.now proof.now.letters indices.now }
    ensures { IfOk result (λ text. text.items ≡ indexed_text alphabet.now proof.now) }
{
    let _states = proof.states();
    let mut text = opening(alloc, "armc 2 safe", alphabet, letters, proof)?;
    push_edges(alloc, &mut text, indices, proof)?;
    text.extend_from_slice(b"end\n")?;
    Ok(text)
}

/// Adds the lines of all edges. The letters have these indices.
fn push_edges(
    alloc: Global,
    text: &mut Vec<u8>,
    indices: &[usize],
    proof: &Dfa,
) -> Result<(), AllocError>
    requires { length indices.now ≡ proof.now.letters }
    ensures { OnOk result (text.new.items ≡ text.old.items ++ flat_map (text_from indices.now proof.now)
        (range_with_len 0 (length proof.now.states))) }
{
    'states: for state in 0..proof.states() {
        push_edges_from(alloc, text, indices, proof, state)?;
    }
    Ok(())
}

/// Adds the lines of the edges of one state.
fn push_edges_from(
    alloc: Global,
    text: &mut Vec<u8>,
    indices: &[usize],
    proof: &Dfa,
    from: usize,
) -> Result<(), AllocError>
    requires letters { length indices.now ≡ proof.now.letters }
    requires state { from < length proof.now.states }
    ensures { OnOk result (text.new.items ≡ text.old.items ++ text_from indices.now proof.now from) }
{
    let edges = by_target(alloc, proof.edges_from(from))?;
    push_sorted(text, indices, from, edges.as_slice())?;
    Ok(())
}

/// The edges sorted by target; those to the same state stay in their order.
fn by_target(alloc: Global, edges: &[(u32, usize)]) -> Result<Vec<(u32, usize)>, AllocError>
    ensures { IfOk result (λ sorted. AreByTarget edges.now sorted.items) }
{
    let mut sorted = Vec::from_slice(alloc, edges)?;
    sorted.sort_by_key(|&(_, to)| to)?;
    Ok(sorted)
}

/// Adds the lines of the edges of one state, which are sorted by target.
fn push_sorted(
    text: &mut Vec<u8>,
    indices: &[usize],
    from: usize,
    edges: &[(u32, usize)],
) -> Result<(), AllocError>
    requires { All (λ edge. edge.0 < length indices.now) edges.now }
    ensures { OnOk result (text.new.items ≡ text.old.items ++ sorted_text indices.now from None edges.now) }
{
    let mut line = None;
    'edges: for edge in edges {
        push_index(text, from, line, edge.1, indices[edge.0 as usize])?;
        line = Some(edge.1);
    }
    if line.is_none() {
        return Ok(());
    }
    push_words(text, &[b"\n"])
}

/// Adds the index of an edge, to the last line if it is that of edges to the same state, and else to a line that is begun.
fn push_index(
    text: &mut Vec<u8>,
    from: usize,
    line: Option<usize>,
    to: usize,
    index: usize,
) -> Result<(), AllocError>
    ensures { OnOk result (text.new.items ≡ text.old.items ++ (before_index from line to ++ codes " " ++ decimal index)) }
{
    begin_line(text, from, line, to)?;
    let mut buffer = Buffer::new();
    push_words(text, &[b" ", buffer.format(index).as_bytes()])
}

/// Begins the line of the edges from one state to another, unless the last line is that one.
fn begin_line(
    text: &mut Vec<u8>,
    from: usize,
    line: Option<usize>,
    to: usize,
) -> Result<(), AllocError>
    ensures { OnOk result (text.new.items ≡ text.old.items ++ before_index from line to) }
{
    match line {
        Some(last) => {
            if last == to {
                return Ok(());
            }
            text.push(b'\n')?;
            push_line_start(text, from, to)
        }
        None => push_line_start(text, from, to),
    }
}

/// Adds the start of the line of the edges from one state to another.
fn push_line_start(text: &mut Vec<u8>, from: usize, to: usize) -> Result<(), AllocError>
    ensures { OnOk result (text.new.items ≡ text.old.items ++ line_start from to) }
{
    let mut source = Buffer::new();
    let mut target = Buffer::new();
    let from = source.format(from).as_bytes();
    let to = target.format(to).as_bytes();
    push_words(text, &[b"edge ", from, b" ", to])
}
