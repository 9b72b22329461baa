//! The rows of an automaton, gathered once for rounds that read each of them again and again: of each state whether it accepts, and its
//! edges where they stand in the automaton. It takes time and memory linear in the states.

ghost use Rattle.std.specs.Prelude.{◌≡◌, IfOk, slice_index};
ghost use Rattle.minimise.specs.private.Rounds.{outgoing_in, edge_number, mixed_in, hash_of};

use std::alloc::{AllocError, Global};
use std::marker::Model;
use word_automata::Dfa;

/// A state: whether it accepts, and its edges, each a letter and a target.
#[derive(Drop)]
pub struct Row<'a> {
    accepting: bool,
    edges: &'a [(u32, usize)],
}

impl<'a> Model for Row<'a> {
    ghost use Rattle.std.specs.Prelude.{ℕ};
    ghost use Rattle.word_automata.specs.Path.{Node};

    ghost Value = { Node ℕ };

    ghost view = { λ r. record { accepting = r.accepting; edges = r.edges.now } };
}

/// The rows of all states.
#[tactic(auto, using(crate::proofs::RowLists::row_added))]
pub fn rows<'a>(alloc: Global, automaton: &'a Dfa) -> Result<Vec<Row<'a>>, AllocError>
    ensures { IfOk result (λ rows. rows.items ≡ automaton.now.states) }
{
    let count = automaton.states();
    let mut rows = Vec::with_capacity(alloc, count)?;
    'states: for state in 0..count {
        rows.push(Row {
            accepting: automaton.accepting(state),
            edges: automaton.edges_from(state),
        })?;
    }
    Ok(rows)
}

impl<'a> Row<'a> {
    ghost use Rattle.std.specs.Prelude.{◌≡◌};
    ghost use Rattle.minimise.specs.private.Rounds.{outgoing_in, hash_of};

    /// The hash of the signature of the state by the classes, without its own class. That of no word is 0.
    pub fn hash(&self, classes: &[usize]) -> usize
        ensures { result ≡ hash_of (outgoing_in classes.now self.now) }
    {
        hash_of(self.accepting, self.edges, classes)
    }
}

/// The hash of the signature of a state that has these edges, without its own class.
pub fn hash_of(accepting: bool, edges: &[(u32, usize)], classes: &[usize]) -> usize
    ensures { result ≡ hash_of (outgoing_in classes.now (record { accepting = accepting; edges = edges.now })) }
{
    let mut value = if accepting { 1 } else { 0 };
    'edges: for &(letter, to) in edges {
        let class = class_of(classes, to);
        if class != 0 {
            value = mixed_in(value, edge_number(letter, class));
        }
    }
    value
}

/// The class of the state, 0 where the number is no state.
pub fn class_of(classes: &[usize], state: usize) -> usize
    ensures { result ≡ slice_index classes.now state }
{
    match classes.get(state) {
        Some(class) => *class,
        None => 0,
    }
}

/// A number that few other letters have with their classes.
fn edge_number(letter: u32, class: usize) -> usize
    ensures { result ≡ edge_number (letter, class) }
{
    (letter as usize)
        .wrapping_mul(11_400_714_819_323_198_485)
        .wrapping_add(class)
}

/// The number in which the part is mixed. Its square makes sums of parts that are alike come to different numbers.
fn mixed_in(value: usize, part: usize) -> usize
    ensures { result ≡ mixed_in value part }
{
    let product = value
        .wrapping_add(part)
        .wrapping_mul(11_400_714_819_323_198_485);
    product.wrapping_mul(2 * (product / 4_294_967_296) + 1)
}
