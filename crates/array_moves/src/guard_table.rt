//! What the letters do in an `at` move, and the control states in which a list is read.
//! What each letter does to each guard is found once for each side, so that a step of a control state takes constant time.

ghost use Rattle.std.specs.Prelude.{◌≡◌, ◌<◌, ◌^◌, Bool, List, ℕ, IsTrue, IfOk, map, length};
ghost use Rattle.std.specs.List.{list_all, range_with_len};
ghost use Rattle.protocol_model.specs.Moves.{table_value};
ghost use Rattle.array_moves.specs.private.Flags.{four_flags, union_of, covers_one, covers, has_side, permits};
ghost use Rattle.array_moves.specs.private.Flags.{meets, meets_at, effect_of, asks_at, required_of, widened, reach_of};
ghost use Rattle.array_moves.specs.private.ControlStates.{IsGuardTable, after_letter, after_move, can_end, is_final};

use protocol_model::{Guard, table_value};
use protocol_syntax::Region;
use std::alloc::{AllocError, Global};

/// How much of a list is read: whether the moving position is passed, and which of the guards are met that ask for some
/// letter. There is a flag for each guard, in their order.
#[derive(Clone, Copy, PartialEq, Eq, Hash)]
pub(crate) struct ControlState {
    pub(crate) moved: bool,
    pub(crate) met: [bool; 4],
}

/// What the letters of the section do in a move.
#[derive(Drop)]
pub(crate) struct GuardTable {
    /// The letter of the moving position before.
    pub(crate) from: u32,
    /// Its letter after.
    pub(crate) into: u32,
    /// What each letter becomes at the other positions.
    pub(crate) images: Vec<u32>,
    /// Which guards each letter meets before the moving position; nothing where a guard forbids it there.
    pub(crate) before: Vec<Option<[bool; 4]>>,
    /// The same behind the moving position.
    pub(crate) behind: Vec<Option<[bool; 4]>>,
    /// The guards that some letter meets before the moving position.
    pub(crate) reach_before: [bool; 4],
    /// The same behind the moving position.
    pub(crate) reach_behind: [bool; 4],
    /// The guards that ask for some letter.
    pub(crate) required: [bool; 4],
}

impl GuardTable {
    /// The control state after a letter of a position that does not move, if the guards allow it.
    pub(crate) fn after_letter(&self, control: ControlState, letter: u32) -> Option<ControlState>
        ensures { result ≡ after_letter self.now control letter }
    {
        let effects = if control.moved {
            &self.behind
        } else {
            &self.before
        };
        match effects.get(letter as usize) {
            Some(Some(met)) => Some(ControlState {
                moved: control.moved,
                met: union(control.met, *met),
            }),
            _ => None,
        }
    }

    /// The control state after the moving position, if it was not passed before and the guards can still be met.
    pub(crate) fn after_move(&self, control: ControlState) -> Option<ControlState>
        ensures { result ≡ after_move self.now control }
    {
        if control.moved {
            return None;
        }
        let met = control.met;
        let next = ControlState { moved: true, met };
        if self.can_end(next) { Some(next) } else { None }
    }

    /// Whether the guards that ask for some letter can still be met.
    pub(crate) fn can_end(&self, control: ControlState) -> bool
        ensures { result ≡ can_end self.now control }
    {
        let met = if control.moved {
            control.met
        } else {
            union(control.met, self.reach_before)
        };
        covers(union(met, self.reach_behind), self.required)
    }

    /// Whether a list may end in the control state.
    pub(crate) fn is_final(&self, control: ControlState) -> bool
        ensures { result ≡ is_final self.now control }
    {
        control.moved && covers(control.met, self.required)
    }
}

/// The guard table of a move, for the `count` letters of its section.
pub(crate) fn guard_table_of(
    alloc: Global,
    from: u32,
    into: u32,
    guards: &[Guard],
    table: &[(u32, u32)],
    count: u32,
) -> Result<GuardTable, AllocError>
    ensures { IfOk result (λ guard_table. IsGuardTable from into guards.now table.now count guard_table) }
{
    let images = images(alloc, table, count)?;
    let before = effects(alloc, guards, false, count)?;
    let behind = effects(alloc, guards, true, count)?;
    let reach_before = reach(before.as_slice());
    let reach_behind = reach(behind.as_slice());
    Ok(GuardTable {
        from,
        into,
        images,
        before,
        behind,
        reach_before,
        reach_behind,
        required: required(guards),
    })
}

/// What the table makes of each letter.
fn images(alloc: Global, table: &[(u32, u32)], count: u32) -> Result<Vec<u32>, AllocError>
    ensures { IfOk result (λ images. images.items ≡ map (table_value table.now) (range_with_len 0 count)) }
{
    (0..count)
        .map(|letter| table_value(table, letter))
        .collect(alloc)
}

/// Which guards each letter meets on one side of the moving position.
fn effects(
    alloc: Global,
    guards: &[Guard],
    behind: bool,
    count: u32,
) -> Result<Vec<Option<[bool; 4]>>, AllocError>
    ensures { IfOk result (λ effects. effects.items ≡ map (effect_of guards.now behind) (range_with_len 0 count)) }
{
    (0..count)
        .map(|letter| effect_of(guards, behind, letter))
        .collect(alloc)
}

/// Which guards the letter meets on one side of the moving position; nothing where a guard forbids it there.
fn effect_of(guards: &[Guard], behind: bool, letter: u32) -> Option<[bool; 4]>
    ensures { result ≡ effect_of guards.now behind letter }
{
    if all_permit(guards, behind, letter) {
        let met = met_by(guards, behind, letter);
        Some(met)
    } else {
        None
    }
}

/// Whether every guard allows the letter on that side of the moving position.
fn all_permit(guards: &[Guard], behind: bool, letter: u32) -> bool
    ensures { result ≡ list_all (λ guard. permits guard behind letter) guards.now }
{
    guards.iter().all(|guard| permits(guard, behind, letter))
}

/// The guards that the letter meets on one side of the moving position.
fn met_by(guards: &[Guard], behind: bool, letter: u32) -> [bool; 4]
    ensures { result ≡ four_flags (meets_at guards.now behind letter) }
{
    [
        meets_at(guards, behind, letter, 0),
        meets_at(guards, behind, letter, 1),
        meets_at(guards, behind, letter, 2),
        meets_at(guards, behind, letter, 3),
    ]
}

/// Whether the guard with this number, if it is there, is met by the letter.
fn meets_at(guards: &[Guard], behind: bool, letter: u32, number: usize) -> bool
    ensures { result ≡ meets_at guards.now behind letter number }
{
    match guards.get(number) {
        Some(guard) => meets(guard, behind, letter),
        None => false,
    }
}

/// Whether the guard allows the letter on that side of the moving position.
fn permits(guard: &Guard, behind: bool, letter: u32) -> bool
    ensures { result ≡ permits guard.now behind letter }
{
    !(guard.all && has_side(guard.region, behind)) || guard.letters.as_slice().contains(&letter)
}

/// Whether the guard asks for some letter, and this one on that side of the moving position is enough.
fn meets(guard: &Guard, behind: bool, letter: u32) -> bool
    ensures { result ≡ meets guard.now behind letter }
{
    !guard.all && has_side(guard.region, behind) && guard.letters.as_slice().contains(&letter)
}

/// Whether the region has the positions behind the moving one, or those before it.
fn has_side(region: Region, behind: bool) -> bool
    ensures { result ≡ has_side region behind }
{
    match region {
        Region::Left => !behind,
        Region::Right => behind,
        Region::Others => true,
    }
}

/// The guards that ask for some letter.
fn required(guards: &[Guard]) -> [bool; 4]
    ensures { result ≡ required_of guards.now }
{
    [
        asks_at(guards, 0),
        asks_at(guards, 1),
        asks_at(guards, 2),
        asks_at(guards, 3),
    ]
}

/// Whether the guard with this number, if it is there, asks for some letter.
fn asks_at(guards: &[Guard], number: usize) -> bool
    ensures { result ≡ asks_at guards.now number }
{
    match guards.get(number) {
        Some(guard) => !guard.all,
        None => false,
    }
}

/// The guards that some letter meets.
fn reach(effects: &[Option<[bool; 4]>]) -> [bool; 4]
    ensures { result ≡ reach_of effects.now }
{
    let mut reach = [false; 4];
    'effects: for effect in effects {
        let wider = widened(reach, *effect);
        reach = wider;
    }
    reach
}

/// The flags, and those that an allowed letter sets.
fn widened(flags: [bool; 4], effect: Option<[bool; 4]>) -> [bool; 4]
    ensures { result ≡ widened flags effect }
{
    match effect {
        Some(met) => union(flags, met),
        None => flags,
    }
}

/// The flags of either.
fn union(a: [bool; 4], b: [bool; 4]) -> [bool; 4]
    ensures { result ≡ union_of a b }
{
    [a[0] | b[0], a[1] | b[1], a[2] | b[2], a[3] | b[3]]
}

/// Whether the first flags have all of the second.
fn covers(a: [bool; 4], b: [bool; 4]) -> bool
    ensures { result ≡ covers a b }
{
    covers_one(a[0], b[0])
        & covers_one(a[1], b[1])
        & covers_one(a[2], b[2])
        & covers_one(a[3], b[3])
}

/// Whether the first flag is set if the second one is.
fn covers_one(a: bool, b: bool) -> bool
    ensures { result ≡ covers_one a b }
{
    !b || a
}
