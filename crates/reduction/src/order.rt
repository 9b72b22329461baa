//! The order of edges by letter and target: one number is computed for each edge, and edges are sorted by it where they are not in
//! order. Who merges two lists of edges relies on it for speed and for finding all, never for being right.

ghost use Rattle.std.specs.Prelude.{◌≤◌, ◌^◌, IsPermutation};

use word_automata::Nfa;

/// Targets below this number are told apart by the order.
const TARGETS: u64 = 1 << 31;

/// A number that is greater for greater letters, and least for none.
pub fn letter_number(letter: Option<u32>) -> u64
    ensures { result ≤ 2 ^ 32 }
{
    match letter {
        Some(letter) => u64::from(letter) + 1,
        None => 0,
    }
}

/// The number of the letter above the last 31 bits of the target.
fn edge_number(letter: Option<u32>, to: usize) -> u64 {
    letter_number(letter) * TARGETS + to as u64 % TARGETS
}

/// Whether the edges of each state are in order.
pub fn has_ordered_edges(automaton: &Nfa) -> bool {
    'states: for state in 0..automaton.states() {
        if !are_ordered(automaton.edges_from(state)) {
            return false;
        }
    }
    true
}

/// Whether the edges are in order.
pub fn are_ordered(edges: &[(Option<u32>, usize)]) -> bool {
    let mut least = 0;
    'edges: for &(letter, to) in edges {
        let number = edge_number(letter, to);
        if number < least {
            return false;
        }
        least = number;
    }
    true
}

/// Puts the edges in order.
pub fn order_edges(edges: &mut Vec<(Option<u32>, usize)>)
    ensures { IsPermutation edges.old.items edges.new.items }
{
    edges.sort_unstable_by_key(|&(letter, to)| edge_number(letter, to));
}
