//! The move of one position, with guards on the other positions and a table for them.
//! The control states that can be reached are found by a worklist, and one from which the guards cannot be met any more is no state.

ghost use Rattle.std.specs.Prelude.{◌≡◌, ◌↔◌, ◌≤◌, ◌<◌, ◌+◌, ◌^◌, List, [], ℕ, Some, IfOk, OnOk, length, slice_get};
ghost use Rattle.indexmap.specs.IndexSet.{index_set_len};
ghost use Rattle.protocol_syntax.specs.declared.protocol.Move.TheVariants.{At};
ghost use Rattle.protocol_model.specs.System.{IsValidMove};
ghost use Rattle.protocol_model.specs.Moves.{IsAtMove};
ghost use Rattle.transducers.specs.Transducer.{Relates};
ghost use Rattle.protocol_model.specs.Raised.{IsRaisedMove};
ghost use Rattle.array_moves.specs.declared.guard_table.ControlState.{ControlState};
ghost use Rattle.array_moves.specs.private.ControlStates.{HasRoom, HasFirst, Numbers, LetterEdges, ControlEdges, IsMachine, starts_of};

use crate::guard_table::{ControlState, GuardTable, guard_table_of};
use indexmap::IndexSet;
use protocol_model::{Guard, SectionLetters};
use std::alloc::{AllocError, Global};
use transducers::{Label, State, Transducer};

/// The machine for an `at` move: a position changes from `from` to `into` where every guard holds, and the table changes
/// all others. Its states are the control states that can be reached and from which the guards can still be met.
pub(crate) fn compile_at(
    alloc: Global,
    from: u32,
    into: u32,
    guards: &[Guard],
    table: &[(u32, u32)],
    alphabet: SectionLetters,
) -> Result<Transducer, AllocError>
    requires valid { IsValidMove alphabet.count (At from into guards.now table.now) }
    requires fits { alphabet.offset + alphabet.count ≤ alphabet.letters }
    ensures letters { IfOk result (λ t. t.letters ≡ alphabet.letters) }
    ensures relates { IfOk result (λ t. (u w : List ℕ) → Relates t u w
        ↔ IsRaisedMove (IsAtMove from into guards.now table.now) alphabet.offset alphabet.count u w) }
{
    let guard_table = guard_table_of(alloc, from, into, guards, table, alphabet.count)?;
    let states = states(alloc, &guard_table, alphabet)?;
    let starts = starts(alloc, states.as_slice())?;
    Ok(Transducer::from_states(alphabet.letters, starts, states))
}

/// The number of the first state, where there is one.
fn starts(alloc: Global, states: &[State]) -> Result<Vec<usize>, AllocError>
    ensures { IfOk result (λ starts. starts.items ≡ starts_of (length states.now)) }
{
    if states.is_empty() {
        Ok(Vec::new(alloc))
    } else {
        Ok(vec![in alloc; 0]?)
    }
}

/// The states of the control states that can be reached, by their numbers.
fn states(
    alloc: Global,
    guard_table: &GuardTable,
    alphabet: SectionLetters,
) -> Result<Vec<State>, AllocError>
    requires { HasRoom alphabet.offset alphabet.count guard_table.now }
    ensures { IfOk result (λ states. (controls : List ControlState)
        × IsMachine guard_table.now alphabet.offset alphabet.count controls states.items) }
{
    let mut controls = IndexSet::new(alloc);
    reached_states(alloc, guard_table, &mut controls, alphabet)
}

/// The same, which also numbers the control states.
fn reached_states(
    alloc: Global,
    guard_table: &GuardTable,
    controls: &mut IndexSet<ControlState>,
    alphabet: SectionLetters,
) -> Result<Vec<State>, AllocError>
    requires room { HasRoom alphabet.offset alphabet.count guard_table.now }
    requires none { controls.old.keys ≡ [] }
    ensures { IfOk result (λ states. (controls : List ControlState)
        × IsMachine guard_table.now alphabet.offset alphabet.count controls states.items) }
{
    number_first(guard_table, controls)?;
    let mut states = Vec::new(alloc);
    'controls: while states.len() < controls.len() {
        let control = control_at(controls, states.len());
        let edges = control_edges(alloc, guard_table, controls, control, alphabet)?;
        states.push(State::new(guard_table.is_final(control), edges))?;
    }
    Ok(states)
}

/// Numbers the first control state, where the guards can be met from there.
fn number_first(
    guard_table: &GuardTable,
    controls: &mut IndexSet<ControlState>,
) -> Result<(), AllocError>
    requires { controls.old.keys ≡ [] }
    ensures { OnOk result (HasFirst guard_table.now controls.new.keys) }
{
    let first = ControlState {
        moved: false,
        met: [false; 4],
    };
    if guard_table.can_end(first) {
        controls.insert(first)?;
    }
    Ok(())
}

/// The edges that leave the control state. The control states to which they lead are numbered.
fn control_edges(
    alloc: Global,
    guard_table: &GuardTable,
    controls: &mut IndexSet<ControlState>,
    control: ControlState,
    alphabet: SectionLetters,
) -> Result<Vec<(Label, usize)>, AllocError>
    requires { HasRoom alphabet.offset alphabet.count guard_table.now }
    ensures { IfOk result (λ edges. ControlEdges guard_table.now alphabet.offset alphabet.count control
        controls.old.keys controls.new.keys edges.items) }
{
    let mut edges = letter_edges(alloc, guard_table, controls, control, alphabet)?;
    if let Some(next) = guard_table.after_move(control) {
        let target = number(controls, next)?;
        let label = Label::exchange(
            guard_table.from + alphabet.offset,
            guard_table.into + alphabet.offset,
        );
        edges.push((label, target))?;
    }
    Ok(edges)
}

/// The edges that leave the control state on letters of positions that do not move.
fn letter_edges(
    alloc: Global,
    guard_table: &GuardTable,
    controls: &mut IndexSet<ControlState>,
    control: ControlState,
    alphabet: SectionLetters,
) -> Result<Vec<(Label, usize)>, AllocError>
    requires { HasRoom alphabet.offset alphabet.count guard_table.now }
    ensures { IfOk result (λ edges. LetterEdges guard_table.now alphabet.offset alphabet.count control
        controls.old.keys controls.new.keys edges.items) }
{
    let mut edges = Vec::new(alloc);
    'letters: for letter in 0..alphabet.count {
        if let Some(next) = guard_table.after_letter(control, letter) {
            let target = number(controls, next)?;
            let image = guard_table.images[letter as usize];
            let label = Label::exchange(letter + alphabet.offset, image + alphabet.offset);
            edges.push((label, target))?;
        }
    }
    Ok(edges)
}

/// The number of the control state, which is the next one for a control state that has none yet.
fn number(controls: &mut IndexSet<ControlState>, control: ControlState) -> Result<usize, AllocError>
    ensures { IfOk result (λ j. Numbers controls.old.keys controls.new.keys control j) }
{
    let (number, _) = controls.insert_full(control)?;
    Ok(number)
}

/// The control state with this number.
fn control_at(controls: &IndexSet<ControlState>, number: usize) -> ControlState
    requires { number < index_set_len controls.now }
    ensures { slice_get controls.now.keys number ≡ Some result }
{
    controls.as_slice()[number]
}
