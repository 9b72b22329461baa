//! States of an automaton that may be missing: where no edge leads on, there is none, and no word is accepted from there. Each call takes
//! constant time.

ghost use Rattle.std.specs.Prelude.{◌≡◌, ◌<◌};
ghost use Rattle.word_automata.specs.Automaton.{IsValid};
ghost use Rattle.boolean_operations.specs.OptionalStates.{start_of, accepts_at, edges_at, IsStateOrNone};

use word_automata::Dfa;

/// The start state, if there is a state.
pub(crate) fn start_of(automaton: &Dfa) -> Option<usize>
    ensures value { result ≡ start_of automaton.now.states }
    ensures state { IsStateOrNone automaton.now result }
    ensures valid { IsValid automaton.now }
{
    if automaton.states() == 0 {
        None
    } else {
        Some(0)
    }
}

/// Whether the state is there and accepts.
pub(crate) fn accepts_at(automaton: &Dfa, state: Option<usize>) -> bool
    requires { IsStateOrNone automaton.now state }
    ensures { result ≡ accepts_at automaton.now state }
{
    match state {
        Some(state) => automaton.accepting(state),
        None => false,
    }
}

/// The edges of the state, none where there is no state.
pub(crate) fn edges_at(automaton: &Dfa, state: Option<usize>) -> &[(u32, usize)]
    requires { IsStateOrNone automaton.now state }
    ensures { result.now ≡ edges_at automaton.now state }
{
    match state {
        Some(state) => automaton.edges_from(state),
        None => &[],
    }
}

/// The number of the state, or the number of states where there is none: a number that tells them apart.
pub(crate) fn code_of(automaton: &Dfa, state: Option<usize>) -> usize {
    match state {
        Some(state) => state,
        None => automaton.states(),
    }
}
