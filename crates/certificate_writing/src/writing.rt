//! The texts of an automaton and of a search that reached its budget. The states are gone over twice, for the accepting ones and for the
//! edges; time is linear in the states, the letters and the text.

ghost use Rattle.std.specs.Prelude.{◌≡◌, ◌++◌, ◌∷◌, ◌<◌, ◌≤◌, [], All, IfOk, OnOk, decimal, length, flat_map, if◌then◌else◌};
ghost use Rattle.std.specs.List.{range_with_len};
ghost use Rattle.word_automata.specs.Path.{is_accepting};
ghost use Rattle.protocol_model.specs.Words.{automata_letters};
ghost use Rattle.certificate.specs.SafeText.{Edge, MeansAutomaton, letter_line, letters_text, line_text, lines_text, states_line};
ghost use Rattle.certificate_writing.specs.Writing.{final_states, lines_from, automaton_text, written_text, counted_text, unknown_text};
ghost use Rattle.certificate_writing.specs.private.WritingParts.{final_text, named_text_from, opening_text};

use certificate::Alphabet;
use itoa::Buffer;
use protocol_model::System;
use std::alloc::{AllocError, Global};
use word_automata::Dfa;

/// The text of a certificate that is this automaton. After the number of states it has the accepting states by
/// increasing number, and then the edges by source and letter.
pub fn write_safe(alloc: Global, system: &System, proof: &Dfa) -> Result<Vec<u8>, AllocError>
    requires letters { proof.now.letters ≡ automata_letters system.now }
    requires limit { length proof.now.states ≤ 1000000 }
    ensures text { IfOk result (λ text. text.items ≡ written_text system.now proof.now) }
    ensures meaning { IfOk result (λ text. MeansAutomaton system.now text.items proof.now) }
{
    let _states = proof.states();
    let _rules = system.rules.len();
    let text = write_automaton(alloc, "armc 1 safe", system, proof)?;
    Ok(text)
}

/// The text of this automaton under a first line: the number of states, the accepting states by increasing number, and the edges by
/// source and letter.
pub fn write_automaton(
    alloc: Global,
    first: &str,
    system: &System,
    proof: &Dfa,
) -> Result<Vec<u8>, AllocError>
    requires { proof.now.letters ≡ automata_letters system.now }
    ensures { IfOk result (λ text. text.items ≡ automaton_text first.now system.now proof.now) }
{
    let alphabet = Alphabet::new(alloc, system)?;
    let mut text = opening(alloc, first, &alphabet, &[], proof)?;
    push_edges(&mut text, &alphabet, proof)?;
    text.extend_from_slice(b"end\n")?;
    Ok(text)
}

/// The text before the lines of edges: this line, those that name the letters, the number of states, and the accepting states by
/// increasing number.
pub fn opening(
    alloc: Global,
    first: &str,
    alphabet: &Alphabet,
    letters: &[u32],
    proof: &Dfa,
) -> Result<Vec<u8>, AllocError>
    requires { All (λ a. a < automata_letters alphabet.now) letters.now }
    ensures { IfOk result (λ text. text.items ≡ opening_text first.now letters.now alphabet.now proof.now) }
{
    let count = proof.states();
    let mut text = Vec::from_slice(alloc, first.as_bytes())?;
    text.push(b'\n')?;
    push_letters(&mut text, alphabet, letters)?;
    push_states_line(&mut text, count)?;
    push_final_states(&mut text, proof)?;
    Ok(text)
}

/// The text of a search that reached its budget when so many states were counted.
pub fn write_unknown(alloc: Global, counted: u64, budget: u64) -> Result<Vec<u8>, AllocError>
    ensures { IfOk result (λ text. text.items ≡ unknown_text counted budget) }
{
    write_counted(alloc, "armc 1 unknown", counted, budget)
}

/// The text of a search that reached its budget when so many states were counted, under a first line.
pub fn write_counted(
    alloc: Global,
    first: &str,
    counted: u64,
    budget: u64,
) -> Result<Vec<u8>, AllocError>
    ensures { IfOk result (λ text. text.items ≡ counted_text first.now counted budget) }
{
    let text = format!(in alloc; "{first}\ncounted {counted}\nbudget {budget}\nend\n")?;
    Ok(text.into_bytes())
}

/// Adds the lines that name the letters.
fn push_letters(text: &mut Vec<u8>, alphabet: &Alphabet, letters: &[u32]) -> Result<(), AllocError>
    requires { All (λ a. a < automata_letters alphabet.now) letters.now }
    ensures { OnOk result (text.new.items ≡ text.old.items ++ letters_text alphabet.now letters.now) }
{
    'letters: for letter in letters {
        push_letter(text, alphabet, *letter)?;
    }
    Ok(())
}

/// Adds the line that names a letter.
fn push_letter(text: &mut Vec<u8>, alphabet: &Alphabet, letter: u32) -> Result<(), AllocError>
    requires { letter < automata_letters alphabet.now }
    ensures { OnOk result (text.new.items ≡ text.old.items ++ (letter_line alphabet.now letter ++ 10 ∷ [])) }
{
    push_words(text, &[b"letter ", alphabet.text(letter), b"\n"])
}

/// Adds the line on states.
fn push_states_line(text: &mut Vec<u8>, count: usize) -> Result<(), AllocError>
    ensures { OnOk result (text.new.items ≡ text.old.items ++ (states_line count ++ 10 ∷ [])) }
{
    let mut buffer = Buffer::new();
    push_words(text, &[b"states ", buffer.format(count).as_bytes(), b"\n"])
}

/// Adds the lines of all accepting states.
fn push_final_states(text: &mut Vec<u8>, proof: &Dfa) -> Result<(), AllocError>
    ensures { OnOk result (text.new.items ≡ text.old.items ++ flat_map final_text (final_states proof.now)) }
{
    'states: for state in 0..proof.states() {
        push_if_final(text, proof, state)?;
    }
    Ok(())
}

/// Adds the line of the state if it accepts.
fn push_if_final(text: &mut Vec<u8>, proof: &Dfa, state: usize) -> Result<(), AllocError>
    requires { state < length proof.now.states }
    ensures { OnOk result (text.new.items ≡ text.old.items ++ (if is_accepting proof.now.states state then final_text state else [])) }
{
    if !proof.accepting(state) {
        return Ok(());
    }
    let mut buffer = Buffer::new();
    push_words(text, &[b"final ", buffer.format(state).as_bytes(), b"\n"])
}

/// Adds the lines of all edges.
fn push_edges(text: &mut Vec<u8>, alphabet: &Alphabet, proof: &Dfa) -> Result<(), AllocError>
    requires { proof.now.letters ≡ automata_letters alphabet.now }
    ensures { OnOk result (text.new.items ≡ text.old.items ++ flat_map (named_text_from alphabet.now proof.now)
        (range_with_len 0 (length proof.now.states))) }
{
    'states: for state in 0..proof.states() {
        push_edges_from(text, alphabet, state, proof.edges_from(state))?;
    }
    Ok(())
}

/// Adds the lines of the edges of one state.
fn push_edges_from(
    text: &mut Vec<u8>,
    alphabet: &Alphabet,
    from: usize,
    edges: &[(u32, usize)],
) -> Result<(), AllocError>
    requires { All (λ edge. edge.0 < automata_letters alphabet.now) edges.now }
    ensures { OnOk result (text.new.items ≡ text.old.items ++ lines_text alphabet.now (lines_from from edges.now)) }
{
    'edges: for edge in edges {
        push_edge(text, alphabet, from, edge.0, edge.1)?;
    }
    Ok(())
}

/// Adds the line of an edge.
fn push_edge(
    text: &mut Vec<u8>,
    alphabet: &Alphabet,
    from: usize,
    letter: u32,
    to: usize,
) -> Result<(), AllocError>
    requires { letter < automata_letters alphabet.now }
    ensures { OnOk result (text.new.items ≡ text.old.items ++ (line_text alphabet.now (Edge from letter to) ++ 10 ∷ [])) }
{
    let mut source = Buffer::new();
    let mut target = Buffer::new();
    let from = source.format(from).as_bytes();
    let to = target.format(to).as_bytes();
    let name = alphabet.text(letter);
    push_words(text, &[b"edge ", from, b" ", name, b" ", to, b"\n"])
}

/// Adds these words, one after the other.
pub fn push_words(text: &mut Vec<u8>, words: &[&[u8]]) -> Result<(), AllocError>
    ensures { OnOk result (text.new.items ≡ text.old.items ++ flat_map (λ word. word.now) words.now) }
{
    'words: for word in words {
        text.extend_from_slice(word)?;
    }
    Ok(())
}
