//! Whether classes are stable: states of one class have one signature. Each state is compared with the least one of its class, in
//! time linear in the edges of both.

ghost use Rattle.std.specs.Prelude.{◌≡◌, ◌<◌, IsTrue, IfOk, length};
ghost use Rattle.minimise.specs.private.Rounds.{IsLikeLeast, AreAlike};

use crate::refinement::put_live_edges;
use std::alloc::{AllocError, Global};
use word_automata::Dfa;

/// Whether each state has the signature of the least state of its class, and that of no word in class 0.
pub fn is_stable(alloc: Global, automaton: &Dfa, classes: &[usize]) -> Result<bool, AllocError>
    requires { length classes.now ≡ length automaton.now.states }
    ensures { IfOk result (λ stable. IsTrue stable → AreAlike automaton.now classes.now) }
{
    let mut own = Vec::new(alloc);
    let mut other = Vec::new(alloc);
    'states: for state in 0..automaton.states() {
        if !is_like_least(automaton, classes, state, &mut own, &mut other)? {
            return Ok(false);
        }
    }
    Ok(true)
}

/// Whether the state has the signature of the least state of its class. The lists are for edges of the two.
fn is_like_least(
    automaton: &Dfa,
    classes: &[usize],
    state: usize,
    own: &mut Vec<(u32, usize)>,
    other: &mut Vec<(u32, usize)>,
) -> Result<bool, AllocError>
    requires count { length classes.now ≡ length automaton.now.states }
    requires state { state < length automaton.now.states }
    ensures { IfOk result (λ alike. IsTrue alike → IsLikeLeast automaton.now classes.now state) }
{
    let class = classes[state];
    if class == 0 {
        put_live_edges(own, automaton, classes, state)?;
        return Ok(!automaton.accepting(state) && own.is_empty());
    }
    let least = class - 1;
    if least == state {
        return Ok(true);
    }
    if least >= automaton.states() {
        return Ok(false);
    }
    put_live_edges(own, automaton, classes, state)?;
    put_live_edges(other, automaton, classes, least)?;
    Ok(
        automaton.accepting(state) == automaton.accepting(least)
            && own.as_slice() == other.as_slice(),
    )
}
