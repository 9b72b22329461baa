//! Automata that are built by hand, and their languages: what builders refuse, what automata accept, and the operations that the
//! program does not call. Each takes a few states. An automaton stands in a box, which each end of a function lets go by one call.

use boolean_operations::{complement, difference, is_empty, union};
use std::alloc::Global;
use std::test::Fail;
use word_automata::{Dfa, DfaBuilder, Nfa};

/// Adds these states and edges.
fn add(
    builder: &mut DfaBuilder,
    accepting: &[bool],
    edges: &[(usize, u32, usize)],
) -> Result<(), Fail> {
    'states: for accepts in accepting {
        builder.state(*accepts)?;
    }
    'edges: for &(from, letter, to) in edges {
        builder.edge(from, letter, to)?;
    }
    Ok(())
}

/// The automaton over so many letters with these states and edges.
pub(crate) fn automaton(
    alloc: Global,
    letters: u32,
    accepting: &[bool],
    edges: &[(usize, u32, usize)],
) -> Result<Box<Dfa>, Fail> {
    let mut builder = DfaBuilder::new(alloc, letters);
    add(&mut builder, accepting, edges)?;
    Ok(Box::new(alloc, builder.finish())?)
}

/// The words that the automaton refuses.
fn refused(alloc: Global, a: &Dfa) -> Result<Box<Dfa>, Fail> {
    Ok(Box::new(alloc, complement(alloc, a)?)?)
}

/// The words of both.
fn united(alloc: Global, a: &Dfa, b: &Dfa) -> Result<Box<Dfa>, Fail> {
    if a.letters() != b.letters() {
        return Err("other letters".into());
    }
    Ok(Box::new(alloc, union(alloc, a, b)?)?)
}

/// The words of the first one that are not of the second.
fn without(alloc: Global, a: &Dfa, b: &Dfa) -> Result<Box<Dfa>, Fail> {
    if a.letters() != b.letters() {
        return Err("other letters".into());
    }
    Ok(Box::new(alloc, difference(alloc, a, b)?)?)
}

/// The words over the letters 0 and 1 in which 1 stands once.
fn one_token(alloc: Global) -> Result<Box<Dfa>, Fail> {
    automaton(alloc, 2, &[false, true], &[(0, 1, 1), (0, 0, 0), (1, 0, 1)])
}

/// Words, and whether 1 stands in them once and nothing but 0 beside it.
const WORDS: [(&[u32], bool); 5] = [
    (&[0, 1, 0], true),
    (&[0, 1], true),
    (&[0, 0], false),
    (&[1, 1], false),
    (&[1, 2], false),
];

/// Whether both automata accept each of the words, or refuse it, as told.
fn accept_as_told(alloc: Global, dfa: &Dfa, nfa: &Nfa) -> Result<bool, Fail> {
    'words: for (word, told) in &WORDS {
        if dfa.accepts(word) != *told || nfa.accepts(alloc, word)? != *told {
            return Ok(false);
        }
    }
    Ok(true)
}

#[test]
fn words_are_read(rt: HostRuntime) -> Result<(), Fail> {
    let token = one_token(rt.alloc())?;
    let nondeterministic = Box::new(rt.alloc(), token.as_nfa(rt.alloc())?)?;
    assert!(rt; token.edges() == 3 && accept_as_told(rt.alloc(), &token, &nondeterministic)?);
    Ok(())
}

/// Whether each word over both letters is accepted, and no other.
fn accepts_all(alloc: Global, all: &Dfa) -> Result<bool, Fail> {
    let none = refused(alloc, all)?;
    Ok(all.accepts(&[0, 1]) && !all.accepts(&[2]) && is_empty(alloc, &none)?)
}

/// Whether the first one accepts a word that the second one does not.
fn accepts_more(alloc: Global, a: &Dfa, b: &Dfa) -> Result<bool, Fail> {
    let rest = without(alloc, a, b)?;
    Ok(!is_empty(alloc, &rest)?)
}

/// Whether both together are all words, which are more than the first ones.
fn are_all(alloc: Global, one: &Dfa, others: &Dfa) -> Result<bool, Fail> {
    let all = united(alloc, one, others)?;
    Ok(accepts_all(alloc, &all)? && accepts_more(alloc, &all, one)?)
}

#[test]
fn languages_are_combined(rt: HostRuntime) -> Result<(), Fail> {
    let one = one_token(rt.alloc())?;
    let others = refused(rt.alloc(), &one)?;
    let are_apart = others.accepts(&[]) && !others.accepts(&[0, 1]);
    assert!(rt; are_apart && are_all(rt.alloc(), &one, &others)?);
    Ok(())
}

/// How many letters there are, a word, and whether the complement of an automaton without a state accepts it. Without a letter there is no
/// word but the empty one.
const WITHOUT_STATES: [(u32, &[u32], bool); 4] = [
    (1, &[], true),
    (1, &[0, 0], true),
    (0, &[], true),
    (0, &[0], false),
];

/// Whether an automaton without a state accepts no word, and its complement accepts the words as told.
fn refuse_all(alloc: Global) -> Result<bool, Fail> {
    'words: for (letters, word, told) in &WITHOUT_STATES {
        let none = automaton(alloc, *letters, &[], &[])?;
        let all = refused(alloc, &none)?;
        if none.accepts(word) || all.accepts(word) != *told {
            return Ok(false);
        }
    }
    Ok(true)
}

#[test]
fn few_letters_and_states(rt: HostRuntime) -> Result<(), Fail> {
    assert!(rt; refuse_all(rt.alloc())?);
    Ok(())
}
