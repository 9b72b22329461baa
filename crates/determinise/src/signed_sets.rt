//! The system of sets of states that are told apart by the atoms of their languages: sets that accept the same words are one state. A
//! state is a signature, the numbers of the atoms that its set meets; the set comes along as a hint, and that it has this signature is
//! seen where it is gone on from. The successors of a set cost what they do in [`Subsets`], and the words of a row for each of their
//! states.

ghost use Rattle.std.specs.Prelude.{◌≡◌, ◌↔◌, ◌<◌, ℕ, List, All, IsTrue, IfOk, length, nat_eq};
ghost use Rattle.std.specs.Cmp.{partial_equiv_from_equiv};
ghost use Rattle.std.specs.Cmp.Lexicographic.{pointwise, bytes_decides, nat_list_eq_equiv};
ghost use Rattle.std.specs.Hash as fed;
ghost use Rattle.std.proofs.Common.{ap};
ghost use Rattle.word_automata.specs.Path.{is_accepting};
ghost use Rattle.word_automata.specs.Nondeterministic.{NondeterministicAutomaton, Accepts, AcceptsFromAny, IsInRange};
ghost use Rattle.exploration.specs.Residuals.{AreResiduals};
ghost use Rattle.bit_set.specs.Digest.{digest};
ghost use Rattle.atoms.specs.Covers.{AreAtomsOf, IsSignature, IsWithin, AcceptsWithin};
ghost use Rattle.bit_subsets.specs.Subsets.{IsSubset, IsPlain};
ghost use Rattle.determinise.specs.private.Signatures.{AreSigned};

use crate::state_set::StateSet;
use crate::subsets::Subsets;
use atoms::Atoms;
use bit_set::BitSet;
use exploration::LanguageSystem;
use std::alloc::{AllocError, Global};
use std::hash::{Hash, Hasher};
use std::marker::Model;
use word_automata::Nfa;

/// A signature with a set of states that should have it. Two are equal exactly where their signatures are.
#[derive(Drop)]
pub struct SignedSet {
    signature: BitSet,
    states: StateSet,
}

impl Model for SignedSet {
    ghost use Rattle.std.specs.Prelude.{List, ℕ};

    ghost Value = { List ℕ };

    ghost view = { λ s. s.signature };
}

impl PartialEq for SignedSet {
    ghost eq = { λ a b. pointwise nat_eq a b };

    ghost laws = { partial_equiv_from_equiv nat_list_eq_equiv };

    fn eq(&self, other: &SignedSet) -> bool {
        self.signature == other.signature
    }
}

impl Eq for SignedSet {
    ghost laws = { nat_list_eq_equiv };
}

impl Hash for SignedSet {
    ghost hash_input = { λ s. fed.u64 (digest s) };

    ghost respects_eq = { λ x y e. ap (λ s. fed.u64 (digest s)) ((bytes_decides x y).0 e) };

    fn hash<H: Hasher>(&self, state: &mut H) {
        self.signature.digest().hash(state);
    }
}

/// The signatures of sets of states of an automaton without edges without a letter.
#[derive(Drop)]
pub struct SignedSets<'a> {
    subsets: &'a Subsets<'a>,
    atoms: &'a Atoms,
}

impl<'a> Model for SignedSets<'a> {
    ghost use Rattle.std.specs.Prelude.{List, ℕ};
    ghost use Rattle.word_automata.specs.Nondeterministic.{NondeterministicAutomaton, IsInRange};
    ghost use Rattle.atoms.specs.Covers.{AreAtomsOf};
    ghost use Rattle.bit_subsets.specs.Subsets.{IsPlain};

    ghost Value = { NondeterministicAutomaton × List (List ℕ) };

    ghost view = { λ s. (s.subsets.now.automaton.now, s.atoms.now) };

    ghost invariant = { λ s. IsInRange s.subsets.now.automaton.now × ((p : ℕ) → IsPlain s.subsets.now.automaton.now p)
        × AreAtomsOf s.subsets.now.automaton.now s.atoms.now };
}

impl<'a> SignedSets<'a> {
    /// The signatures of these sets of states by these atoms.
    pub fn new(subsets: &'a Subsets<'a>, atoms: &'a Atoms) -> SignedSets<'a>
        requires in_range { IsInRange subsets.now.automaton.now }
        requires plain { (p : ℕ) → IsPlain subsets.now.automaton.now p }
        requires atoms { AreAtomsOf subsets.now.automaton.now atoms.now }
        ensures { result ≡ (subsets.now.automaton.now, atoms.now) }
    {
        SignedSets { subsets, atoms }
    }
}

/// The set with its signature.
fn signed(alloc: Global, atoms: &Atoms, states: StateSet) -> Result<SignedSet, AllocError>
    requires { All (λ q. q < length atoms.now) states }
    ensures { IfOk result (IsSignature atoms.now states) }
{
    let signature = atoms.signature(alloc, states.as_slice())?;
    Ok(SignedSet { signature, states })
}

/// The successors of a set, with their signatures.
fn signed_successors(
    alloc: Global,
    subsets: &Subsets,
    atoms: &Atoms,
    states: &StateSet,
) -> Result<Vec<(u32, SignedSet)>, AllocError>
    requires count { length atoms.now ≡ length subsets.now.automaton.now.states }
    requires subset { IsSubset subsets.now.automaton.now states.now }
    ensures { IfOk result (λ signed. (pairs : List (ℕ × List ℕ))
        × AreResiduals subsets.now.automaton.now.letters (AcceptsFromAny subsets.now.automaton.now)
        (IsSubset subsets.now.automaton.now) states.now pairs
        × AreSigned atoms.now pairs signed.items) }
{
    let pairs = subsets.successors(alloc, states)?;
    let mut successors = Vec::with_capacity(alloc, pairs.len())?;
    'pairs: for (letter, states) in pairs {
        successors.push((letter, signed(alloc, atoms, states)?))?;
    }
    Ok(successors)
}

/// Whether a state accepts that has no number but those of the signature.
fn has_accepting_within(automaton: &Nfa, atoms: &Atoms, signature: &BitSet) -> bool
    requires { length atoms.now ≡ length automaton.now.states }
    ensures { IsTrue result ↔ ((q : ℕ) × (q < length automaton.now.states) × IsWithin atoms.now signature.now q
        × IsTrue (is_accepting automaton.now.states q)) }
{
    'states: for state in 0..automaton.states() {
        if automaton.accepting(state) && atoms.is_within(state, signature) {
            return true;
        }
    }
    false
}

impl<'a> LanguageSystem for SignedSets<'a> {
    type State = SignedSet;

    ghost letter_count = { λ s. s.0.letters };

    ghost accepted = { λ s. Accepts s.0 };

    ghost language = { λ s. AcceptsWithin s.0 s.1 };

    ghost is_state = { λ s signature. Unit {0} };

    ghost equality = { λ x y h. (bytes_decides x y).0 h };

    fn letters(&self) -> u32 {
        self.subsets.automaton.letters()
    }

    fn start(&self, alloc: Global) -> Result<Option<SignedSet>, AllocError> {
        match self.subsets.start(alloc)? {
            Some(states) => Ok(Some(signed(alloc, self.atoms, states)?)),
            None => Ok(None),
        }
    }

    fn is_accepting(&self, state: &SignedSet) -> bool {
        if self
            .atoms
            .is_signature(&state.signature, state.states.as_slice())
        {
            return self.subsets.is_accepting(&state.states);
        }
        has_accepting_within(self.subsets.automaton, self.atoms, &state.signature)
    }

    fn successors(
        &self,
        alloc: Global,
        state: &SignedSet,
    ) -> Result<Vec<(u32, SignedSet)>, AllocError> {
        if self
            .atoms
            .is_signature(&state.signature, state.states.as_slice())
        {
            return signed_successors(alloc, self.subsets, self.atoms, &state.states);
        }
        let within = self.atoms.states_within(alloc, &state.signature)?;
        let states = StateSet::from_vec(within);
        signed_successors(alloc, self.subsets, self.atoms, &states)
    }
}
