//! The least word that a finite automaton, deterministic or not, accepts, and that a deterministic automaton accepts too, or refuses: a
//! walk over pairs of a state of the first and a state of the second or none, breadth first, which ends at the first pair of which this
//! is so (neither automaton is made deterministic or complemented, nor their product kept), and enters no state from which no word is
//! accepted. It takes time linear in the first automaton and in the edges that leave the pairs that are reached, at most as many as the
//! product of both numbers of states, up to sorting and searching, on average.

ghost use Rattle.std.specs.Prelude.{◌≡◌, ℕ, List, MatchOption, IfOk};
ghost use Rattle.sequence.specs.WordOrder.{IsLeastWord};
ghost use Rattle.boolean_operations.specs.CommonWords.{IsCommonWord};
ghost use Rattle.boolean_operations.specs.Inclusion.{IsIncluded, IsOutside};
ghost use Rattle.boolean_operations.specs.private.DeadStates.{AreRejecting};
ghost use Rattle.boolean_operations.specs.private.PairGraph.{IsPair, IsStartPair, LiveEdge, is_wanted, is_goal_pair, IsWordOfPairs};
ghost use Rattle.boolean_operations.specs.Equality.{same_left_pairs};

use crate::dead_states::{dead_flags, has_flag};
use crate::finite_automaton::FiniteAutomaton;
use crate::graph::Graph;
use crate::merged_edges::seek;
use crate::optional_states::{accepts_at, code_of, edges_at, start_of};
use crate::search::least_word_to_goal;
use std::alloc::{AllocError, Global};
use word_automata::Dfa;

/// The pairs of states of two automata, as a graph whose edges lead to no flagged state of the left automaton. Those are goals of which
/// the left one accepts, and the right one where it is wanted and only there.
#[derive(Drop)]
struct PairGraph<'a, A> {
    left: &'a A,
    right: &'a Dfa,
    dead: &'a [bool],
    wanted: bool,
}

/// A state of the left automaton, and one of the right automaton or none.
type LeftPair = (usize, Option<usize>);

/// Whether it accepts where that is wanted, and refuses where it is not.
fn is_wanted(wanted: bool, accepts: bool) -> bool
    ensures { result ≡ is_wanted wanted accepts }
{
    if wanted { accepts } else { !accepts }
}

impl<'a, A: FiniteAutomaton> Graph for PairGraph<'a, A> {
    type State = LeftPair;

    ghost is_state = { λ g. IsPair (A.automaton g.left.now) g.right.now };

    ghost is_start = { λ g. IsStartPair (A.automaton g.left.now) g.right.now };

    ghost edge = { λ g. LiveEdge (A.automaton g.left.now) g.right.now g.dead.now };

    ghost goal = { λ g. is_goal_pair (A.automaton g.left.now) g.right.now g.wanted };

    fn starts(&self, alloc: Global) -> Result<Vec<LeftPair>, AllocError> {
        let right = start_of(self.right);
        let mut pairs = Vec::new(alloc);
        'starts: for &left in self.left.starts() {
            pairs.push((left, right))?;
        }
        Ok(pairs)
    }

    fn is_goal(&self, state: &LeftPair) -> bool {
        self.left.accepting(state.0) && is_wanted(self.wanted, accepts_at(self.right, state.1))
    }

    fn silent_targets(&self, alloc: Global, state: &LeftPair) -> Result<Vec<LeftPair>, AllocError> {
        let (left, right) = *state;
        let mut targets = Vec::new(alloc);
        'edges: for &edge in self.left.edges_from(left) {
            let (letter, to) = A::read(edge);
            if letter.is_some() {
                continue;
            }
            if has_flag(self.dead, to) {
                continue;
            }
            targets.push((to, right))?;
        }
        Ok(targets)
    }

    fn add_steps(
        &self,
        state: &LeftPair,
        steps: &mut Vec<(u32, LeftPair)>,
    ) -> Result<(), AllocError> {
        let (left, right) = *state;
        let edges = edges_at(self.right, right);
        let mut near = 0;
        'edges: for &edge in self.left.edges_from(left) {
            let (letter, to) = A::read(edge);
            if has_flag(self.dead, to) {
                continue;
            }
            if let Some(letter) = letter {
                let (target, next) = seek(edges, near, letter);
                steps.push((letter, (to, target)))?;
                near = next;
            }
        }
        Ok(())
    }

    // Where words of both are wanted few of the pairs are reached: they have no table of their own.
    fn codes(&self) -> usize {
        if self.wanted {
            return usize::MAX;
        }
        let width = self.right.states() + 1;
        self.left.states().saturating_mul(width)
    }

    fn code(&self, state: &LeftPair) -> usize {
        let width = self.right.states() + 1;
        let right = code_of(self.right, state.1);
        state.0.wrapping_mul(width).wrapping_add(right)
    }

    ghost equality = { same_left_pairs };
}

/// `None` where `b` accepts every word that `a` accepts, and else the least word that `a` accepts and `b` refuses. Both have the
/// same letters. `AllocError` where memory runs out.
pub fn included<A: FiniteAutomaton>(
    alloc: Global,
    a: &A,
    b: &Dfa,
) -> Result<Option<Vec<u32>>, AllocError>
    requires { (A.automaton a.now).letters ≡ b.now.letters }
    ensures { IfOk result (λ word. MatchOption word (IsIncluded (A.automaton a.now) b.now)
        (λ w. IsLeastWord (IsOutside (A.automaton a.now) b.now) w.items)) }
{
    let flags = dead_flags(alloc, a)?;
    least_word_of_pairs(alloc, a, b, &flags, false)
}

/// The least word that both accept, or `None` where there is none. Both have the same letters. `AllocError` where memory runs out.
pub fn least_common_word<A: FiniteAutomaton>(
    alloc: Global,
    a: &A,
    b: &Dfa,
) -> Result<Option<Vec<u32>>, AllocError>
    requires { (A.automaton a.now).letters ≡ b.now.letters }
    ensures { IfOk result (λ word. MatchOption word ((w : List ℕ) → IsCommonWord (A.automaton a.now) b.now w → ⊥)
        (λ w. IsLeastWord (IsCommonWord (A.automaton a.now) b.now) w.items)) }
{
    let flags = dead_flags(alloc, a)?;
    least_word_of_pairs(alloc, a, b, &flags, true)
}

/// The least word that `a` accepts, and that `b` accepts where that is wanted, and refuses where it is not. No word is accepted from
/// states with a flag.
pub(crate) fn least_word_of_pairs<A: FiniteAutomaton>(
    alloc: Global,
    a: &A,
    b: &Dfa,
    dead: &[bool],
    wanted: bool,
) -> Result<Option<Vec<u32>>, AllocError>
    requires { AreRejecting (A.automaton a.now) dead.now }
    ensures { IfOk result (λ word. MatchOption word ((w : List ℕ) → IsWordOfPairs (A.automaton a.now) b.now wanted w → ⊥)
        (λ w. IsLeastWord (IsWordOfPairs (A.automaton a.now) b.now wanted) w.items)) }
{
    let pairs = PairGraph {
        left: a,
        right: b,
        dead,
        wanted,
    };
    least_word_to_goal(alloc, &pairs)
}
