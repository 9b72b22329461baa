//! Sets of states as the states of the construction. A set is hashed by one number, which a multiplication and an exclusive or a
//! state make (G. Fowler, L. C. Noll and K.-P. Vo, 1991), and only that number goes through the hasher. A set of one state takes no
//! memory of its own.

ghost use Rattle.std.specs.Prelude.{◌≡◌, [], ◌∷◌, nat_eq};
ghost use Rattle.std.specs.Cmp.{partial_equiv_from_equiv};
ghost use Rattle.std.specs.Cmp.Lexicographic.{pointwise, bytes_decides, nat_list_eq_equiv};
ghost use Rattle.std.specs.Hash as fed;
ghost use Rattle.std.proofs.Common.{ap};
ghost use Rattle.determinise.specs.Digest.{mixed, digest};

use smallvec::SmallVec;
use std::alloc::Global;
use std::hash::{Hash, Hasher};
use std::marker::Model;

/// An odd number by which numbers are spread over 64 bits.
const MULTIPLIER: u64 = 11400714819323198485;

/// A set of states, by their numbers. Two are equal exactly where their lists of numbers are.
#[derive(Drop)]
pub struct StateSet {
    states: SmallVec<usize, 1>,
}

impl Model for StateSet {
    ghost use Rattle.std.specs.Prelude.{List, ℕ};

    ghost Value = { List ℕ };

    ghost view = { λ s. s.states.items };
}

impl StateSet {
    /// The set of these numbers. It takes no memory.
    pub fn from_vec(states: Vec<usize>) -> StateSet
        ensures { result ≡ states.items }
    {
        StateSet {
            states: SmallVec::from_vec(states),
        }
    }

    /// The set of one number. It takes no memory.
    pub fn from_state(alloc: Global, state: usize) -> StateSet
        ensures { result ≡ state ∷ [] }
    {
        StateSet {
            states: SmallVec::from_buf(alloc, [state]),
        }
    }

    /// The numbers, in their order.
    pub fn as_slice(&self) -> &[usize]
        ensures { result.now ≡ self.now }
    {
        self.states.as_slice()
    }
}

/// The number with one more state.
fn mixed(number: u64, state: usize) -> u64
    ensures { result ≡ mixed number state }
{
    (number ^ state as u64).wrapping_mul(MULTIPLIER)
}

/// A number that most lists of states do not share.
fn digest(states: &[usize]) -> u64
    ensures { result ≡ digest states.now }
{
    let mut number = 0;
    'states: for state in states {
        number = mixed(number, *state);
    }
    number
}

impl PartialEq for StateSet {
    ghost eq = { λ a b. pointwise nat_eq a b };

    ghost laws = { partial_equiv_from_equiv nat_list_eq_equiv };

    fn eq(&self, other: &StateSet) -> bool {
        self.as_slice() == other.as_slice()
    }
}

impl Eq for StateSet {
    ghost laws = { nat_list_eq_equiv };
}

impl Hash for StateSet {
    ghost hash_input = { λ s. fed.u64 (digest s) };

    ghost respects_eq = { λ x y e. ap (λ s. fed.u64 (digest s)) ((bytes_decides x y).0 e) };

    fn hash<H: Hasher>(&self, state: &mut H) {
        digest(self.as_slice()).hash(state);
    }
}

/// How many states the sets have together.
pub fn states_in(sets: &[StateSet]) -> usize {
    let mut count = 0usize;
    'sets: for set in sets {
        count = count.saturating_add(set.as_slice().len());
    }
    count
}
