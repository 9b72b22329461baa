//! Classes of an automaton whose numbers are a topological order, each edge leading to a later state, by the hashes of signatures from the
//! last state on (D. Revuz, 1992): the classes that a signature names are there before it. It takes time linear in the edges.

ghost use Rattle.std.specs.Prelude.{◌≡◌, ◌<◌, ltb, length, IsTrue};
ghost use Rattle.std.specs.List.{list_all};
ghost use Rattle.minimise.specs.private.Rounds.{AreToldApart};

use crate::rows::hash_of;
use word_automata::Dfa;

/// Whether each edge leads to a later state. Then the list has classes of which any two different ones are told apart by words.
pub fn hash_backwards(automaton: &Dfa, classes: &mut Vec<usize>) -> bool
    requires { length classes.old.items ≡ length automaton.now.states }
    ensures count { length classes.new.items ≡ length automaton.now.states }
    ensures apart { IsTrue result → AreToldApart automaton.now classes.new.items }
{
    let mut state = automaton.states();
    'states: while state > 0 {
        state -= 1;
        let edges = automaton.edges_from(state);
        if !lead_on(edges, state) {
            return false;
        }
        classes[state] = hash_of(automaton.accepting(state), edges, classes);
    }
    true
}

/// Whether each edge leads to a state after this one.
fn lead_on(edges: &[(u32, usize)], state: usize) -> bool
    ensures { result ≡ list_all (λ edge. ltb state edge.1) edges.now }
{
    edges.iter().all(|edge| state < edge.1)
}
