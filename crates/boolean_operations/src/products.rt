//! Union, intersection and difference, as products of two automata (Rabin and Scott, 1959) of which the pairs that are reached are made,
//! breadth first: the sorted edges of two states are merged. The time is linear in the edges of both states of these pairs, on average.

ghost use Rattle.std.specs.Prelude.{◌≡◌, ◌&&◌, ◌||◌, ℕ, not, List, Option, IfOk};
ghost use Rattle.word_automata.specs.Automaton.{accepts, IsValid};
ghost use Rattle.boolean_operations.specs.private.Products.{IsPairOfStates, pair_of, is_live, pair_system};
ghost use Rattle.boolean_operations.specs.Equality.{same_pairs};

use crate::merged_edges::{least_letter, take};
use crate::optional_states::{accepts_at, edges_at, start_of};
use exploration::{TransitionSystem, explore};
use std::alloc::{AllocError, Global};
use word_automata::Dfa;

/// Which words a product accepts.
#[derive(Clone, Copy)]
enum Operation {
    Union,
    Intersection,
    Difference,
}

/// A state of a product: a state of each automaton, or none.
type Pair = (Option<usize>, Option<usize>);

/// The product of two automata over the same letters.
#[derive(Drop)]
struct Product<'a> {
    operation: Operation,
    left: &'a Dfa,
    right: &'a Dfa,
    ghost same_letters: { left.now.letters ≡ right.now.letters },
}

impl Product<'_> {
    /// The pair, if a word may still be accepted from it.
    fn pair(&self, left: Option<usize>, right: Option<usize>) -> Option<Pair>
        ensures { result ≡ pair_of self.now.operation left right }
    {
        let is_live = match self.operation {
            Operation::Union => left.is_some() || right.is_some(),
            Operation::Intersection => left.is_some() && right.is_some(),
            Operation::Difference => left.is_some(),
        };
        if is_live { Some((left, right)) } else { None }
    }
}

impl TransitionSystem for Product<'_> {
    type State = Pair;

    ghost system = { λ s. pair_system s.operation s.left.now s.right.now };

    ghost is_state = { λ s pair. IsPairOfStates s.left.now s.right.now pair };

    fn letters(&self) -> u32 {
        self.left.letters()
    }

    fn start(&self, _alloc: Global) -> Result<Option<Pair>, AllocError> {
        Ok(self.pair(start_of(self.left), start_of(self.right)))
    }

    fn is_accepting(&self, state: &Pair) -> bool {
        let left = accepts_at(self.left, state.0);
        let right = accepts_at(self.right, state.1);
        match self.operation {
            Operation::Union => left || right,
            Operation::Intersection => left && right,
            Operation::Difference => left && !right,
        }
    }

    fn successors(&self, alloc: Global, state: &Pair) -> Result<Vec<(u32, Pair)>, AllocError> {
        let left = edges_at(self.left, state.0);
        let right = edges_at(self.right, state.1);
        let most = left.len().saturating_add(right.len());
        let mut successors = Vec::with_capacity(alloc, most)?;
        let mut i = 0;
        let mut j = 0;
        'letters: while i < left.len() || j < right.len() {
            let letter = least_letter(left, i, right, j);
            let (left_target, left_next) = take(left, i, letter);
            let (right_target, right_next) = take(right, j, letter);
            if let Some(pair) = self.pair(left_target, right_target) {
                successors.push((letter, pair))?;
            }
            i = left_next;
            j = right_next;
        }
        Ok(successors)
    }

    ghost equality = { same_pairs };
}

/// An automaton that accepts the words that `a` or `b` accepts. Both have the same letters.
pub fn union(alloc: Global, a: &Dfa, b: &Dfa) -> Result<Dfa, AllocError>
    requires { a.now.letters ≡ b.now.letters }
    ensures language { IfOk result (λ c. (w : List ℕ) → accepts c w ≡ (accepts a.now w || accepts b.now w)) }
    ensures letters { IfOk result (λ c. c.letters ≡ a.now.letters) }
    ensures valid { IfOk result IsValid }
{
    let product = Product {
        operation: Operation::Union,
        left: a,
        right: b,
    };
    explore(alloc, &product)
}

/// An automaton that accepts the words that both `a` and `b` accept. Both have the same letters.
pub fn intersect(alloc: Global, a: &Dfa, b: &Dfa) -> Result<Dfa, AllocError>
    requires { a.now.letters ≡ b.now.letters }
    ensures language { IfOk result (λ c. (w : List ℕ) → accepts c w ≡ (accepts a.now w && accepts b.now w)) }
    ensures letters { IfOk result (λ c. c.letters ≡ a.now.letters) }
    ensures valid { IfOk result IsValid }
{
    let product = Product {
        operation: Operation::Intersection,
        left: a,
        right: b,
    };
    explore(alloc, &product)
}

/// An automaton that accepts the words that `a` accepts and `b` refuses. Both have the same letters.
pub fn difference(alloc: Global, a: &Dfa, b: &Dfa) -> Result<Dfa, AllocError>
    requires { a.now.letters ≡ b.now.letters }
    ensures language { IfOk result (λ c. (w : List ℕ) → accepts c w ≡ (accepts a.now w && not (accepts b.now w))) }
    ensures letters { IfOk result (λ c. c.letters ≡ a.now.letters) }
    ensures valid { IfOk result IsValid }
{
    let product = Product {
        operation: Operation::Difference,
        left: a,
        right: b,
    };
    explore(alloc, &product)
}
