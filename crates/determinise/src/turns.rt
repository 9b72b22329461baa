//! The subset construction in turns with the search for atoms. Where the atoms are found and tell that many sets accept the same words,
//! sets are told apart by these from then on. A turn costs the edges and sets that it looks at for atoms, the atoms of a sample, and what
//! the construction costs for the sets that it finds.

ghost use Rattle.std.specs.Prelude.{◌≡◌, ℕ, IfOk, IfSome};
ghost use Rattle.atoms.specs.Covers.{AreAtomsOf};
ghost use Rattle.bit_subsets.specs.Subsets.{IsPlain};
ghost use Rattle.determinise.specs.private.Determinised.{IsDeterminised};

use crate::lists::Lists;
use crate::sampling::sample_of;
use crate::signed_sets::SignedSets;
use crate::state_set::StateSet;
use crate::subsets::Subsets;
use atoms::{AtomSearch, Atoms};
use exploration::explore_languages;
use std::alloc::{AllocError, Global};
use word_automata::{Dfa, Nfa};

/// The search for atoms looks at one edge or word where the construction looks at so many.
const SHARE: usize = 8;

/// A move of a set is read, written, hashed and compared once each, and sorted by comparisons of two words.
const WORDS_PER_MOVE: usize = 4;

/// There are to be at least so many sets for each signature.
const SETS_PER_SIGNATURE: usize = 2;

/// A construction and a search that are under way, and, where the search is at its end, whether its atoms are to tell sets apart.
#[derive(Drop)]
pub struct Turns<'a> {
    pub lists: Lists<'a>,
    search: Box<AtomSearch<'a>>,
    signed: Option<bool>,
    ghost same: { search.value ≡ lists.subsets.now.automaton.now },
}

impl<'a> Turns<'a> {
    /// The construction with a search for the atoms of the automaton that has begun.
    pub fn begin(alloc: Global, lists: Lists<'a>) -> Result<Turns<'a>, AllocError>
        ensures { IfOk result (λ turns. turns.lists.subsets.now ≡ lists.entry.subsets.now) }
    {
        let search = Box::new(alloc, AtomSearch::begin(alloc, lists.subsets.automaton)?)?;
        Ok(Turns {
            lists,
            search,
            signed: None,
        })
    }

    /// Whether the construction or the search is at its end.
    pub fn is_over(&self) -> bool {
        self.signed.is_some() || self.lists.is_done()
    }

    /// A turn: the search goes on until it has looked at an eighth of the edges and words that the construction looks at for the lists
    /// that were found. If it is at its end, a sample of the sets tells whether these have few signatures, and else the construction
    /// goes on until more than so many are found.
    pub fn next(self, alloc: Global, sets: usize) -> Result<Turns<'a>, AllocError>
        ensures { IfOk result (λ turns. turns.lists.subsets.now ≡ self.entry.lists.subsets.now) }
    {
        let lists = self.lists;
        let work = looked_at(lists.subsets.automaton, lists.states()) / SHARE;
        let search = Box::new(alloc, Box::into_inner(self.search).advance(work)?)?;
        let signed = have_few_signatures(alloc, &search, lists.states())?;
        let most = if signed.is_none() { sets } else { 0 };
        let lists = lists.advance(alloc, most)?;
        Ok(Turns {
            lists,
            search,
            signed,
        })
    }

    /// The automaton of the atoms' signatures, where these are to tell sets apart, and else that of the construction, after what is left.
    pub fn finish(self, alloc: Global) -> Result<Dfa, AllocError>
        requires { (p : ℕ) → IsPlain self.lists.subsets.now.automaton.now p }
        ensures { IfOk result (IsDeterminised self.entry.lists.subsets.now.automaton.now) }
    {
        let lists = self.lists;
        match telling_atoms(self.search, self.signed == Some(true))? {
            Some(atoms) => languages_of(alloc, lists.subsets, &atoms),
            None => lists.finish(),
        }
    }
}

/// The atoms, where they are to tell sets apart.
fn telling_atoms(search: Box<AtomSearch>, signed: bool) -> Result<Option<Atoms>, AllocError>
    ensures { IfOk result (λ found. IfSome found (AreAtomsOf search.entry.value)) }
{
    if !signed {
        return Ok(None);
    }
    search.atoms()
}

/// Whether the sets have few signatures, or `None` where the search is not at its end.
fn have_few_signatures(
    alloc: Global,
    search: &AtomSearch,
    sets: &[StateSet],
) -> Result<Option<bool>, AllocError> {
    match search.atoms()? {
        Some(atoms) => Ok(Some(repeat_signatures(alloc, &atoms, sets)?)),
        None => Ok(None),
    }
}

/// So many edges and words the construction looks at for these sets of states.
fn looked_at(automaton: &Nfa, sets: &[StateSet]) -> usize {
    let mut count: usize = 0;
    'sets: for set in sets {
        let moves = moves_of(automaton, set.as_slice());
        count = count.saturating_add(moves.saturating_mul(words_per_move(moves)));
    }
    count
}

/// So many edges leave the states.
fn moves_of(automaton: &Nfa, states: &[usize]) -> usize {
    let mut count: usize = 0;
    'states: for state in states {
        if *state >= automaton.states() {
            continue;
        }
        count = count.saturating_add(automaton.edges_from(*state).len());
    }
    count
}

/// So many words are looked at for each of so many moves that are sorted.
fn words_per_move(moves: usize) -> usize {
    let bits = usize::BITS.saturating_sub(moves.leading_zeros()) as usize;
    bits.saturating_mul(2).saturating_add(WORDS_PER_MOVE)
}

/// Whether a sample of the sets repeats signatures. Of n signatures that are equally likely a sample of k sets repeats about
/// k * k / 2 n (the birthday problem).
fn repeat_signatures(alloc: Global, atoms: &Atoms, sets: &[StateSet]) -> Result<bool, AllocError> {
    let sample = sample_of(alloc, sets)?;
    let size = sample.len();
    let repeated = size.saturating_sub(atoms.count_signatures(alloc, &sample)?);
    let least = size.saturating_mul(size).saturating_mul(SETS_PER_SIGNATURE);
    Ok(repeated.saturating_mul(2).saturating_mul(sets.len()) >= least)
}

/// The deterministic automaton of the languages of the sets, told apart by the atoms of the automaton's states.
fn languages_of(alloc: Global, subsets: &Subsets, atoms: &Atoms) -> Result<Dfa, AllocError>
    requires plain { (p : ℕ) → IsPlain subsets.now.automaton.now p }
    requires atoms { AreAtomsOf subsets.now.automaton.now atoms.now }
    ensures { IfOk result (IsDeterminised subsets.now.automaton.now) }
{
    let _in_range = subsets.automaton.states();
    let signed = SignedSets::new(subsets, atoms);
    explore_languages(alloc, &signed)
}
