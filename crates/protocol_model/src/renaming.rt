//! Moves with each letter replaced by a number: one traversal of their letters in the order of the text, up to the first fault.
//! Each letter is replaced once, so time is linear in the letters, apart from what the test of a table's left letters takes.

ghost use Rattle.std.specs.Prelude.{◌≡◌, ◌∷◌, [], ℕ, List, Option, None, map};
ghost use Rattle.std.specs.Option.{option_map, option_map_or, option_or};
ghost use Rattle.protocol_syntax.specs.MoveLetters.{renamed, renamed_guard, renamed_pair};
ghost use Rattle.protocol_syntax.specs.declared.protocol.Move.TheVariants.{At, Stack};
ghost use Rattle.protocol_model.specs.declared.fault.ModelFault.{ModelFault as AnyFault};
ghost use Rattle.protocol_model.specs.Faults.{first_fault_of};
ghost use Rattle.protocol_model.specs.Outcome.{IsOutcome};
ghost use Rattle.protocol_model.specs.private.Traversal.{pair_fault, move_fault};

use crate::fault::ModelFault;
use crate::system::{Guard, Move};
use crate::traversal::{Resolver, resolve_each};
use protocol_syntax::{Guard as AnyGuard, Move as AnyMove};
use sequence::Sequence;
use std::alloc::Global;

/// A number for each letter, or a fault.
pub trait Renaming {
    type Letter;

    ghost number: { Self → Self.Letter → ℕ };

    ghost fault: { Self → Self.Letter → Option AnyFault };

    /// The number of a letter, or its fault.
    fn letter(&self, alloc: Global, letter: &Self::Letter) -> Result<u32, ModelFault>
        ensures { IsOutcome (fault self.now letter.now) (number self.now letter.now) result };
}

/// What becomes of the sets of letters of moves, and which letters may stand on the left of a table.
pub trait MoveRenaming: Renaming {
    type Set;

    // The letters of a set in the order of the text.
    ghost letters: { Self → Self.Set → List Self.Letter };

    ghost numbers: { Self → Self.Set → List ℕ };

    // The fault of a left letter after the entries before it.
    ghost left_fault: { Self → List (Self.Letter × Self.Letter) → Self.Letter → Option AnyFault };

    /// The numbers of a set, or the first fault of its letters.
    fn set(&self, alloc: Global, set: &Self::Set) -> Result<Sequence<u32>, ModelFault>
        ensures { IsOutcome (first_fault_of (λ _. Self.fault self.now) [] (letters self.now set.now)) (numbers self.now set.now) result };

    /// Whether the left letter of an entry may stand after the entries before it.
    fn check_entry(
        &self,
        alloc: Global,
        earlier: &[(Self::Letter, Self::Letter)],
        entry: &(Self::Letter, Self::Letter),
    ) -> Result<(), ModelFault>
        ensures { IsOutcome (left_fault self.now earlier.now entry.now.0) tt result };
}

/// Letters, which become their numbers.
#[derive(Drop)]
pub struct Letters<'r, R>(pub &'r R);

impl<'r, R: Renaming> Resolver for Letters<'r, R> {
    type Item = R::Letter;

    type Value = u32;

    ghost value = { λ x. R.number x.0.now };

    ghost fault = { λ x _. R.fault x.0.now };

    fn resolve(
        &self,
        alloc: Global,
        _earlier: &[R::Letter],
        letter: &R::Letter,
    ) -> Result<u32, ModelFault> {
        self.0.letter(alloc, letter)
    }
}

/// Guards of a move.
#[derive(Drop)]
struct Guards<'r, R>(&'r R);

impl<'r, R: Renaming> Resolver for Guards<'r, R> {
    type Item = AnyGuard<R::Letter>;

    type Value = Guard;

    ghost value = { λ x. renamed_guard (R.number x.0.now) };

    ghost fault = { λ x _ guard. first_fault_of (λ _. R.fault x.0.now) [] guard.letters };

    fn resolve(
        &self,
        alloc: Global,
        _earlier: &[AnyGuard<R::Letter>],
        guard: &AnyGuard<R::Letter>,
    ) -> Result<Guard, ModelFault> {
        let letters = resolve_each(alloc, &Letters(self.0), guard.letters.as_slice())?;
        Ok(Guard {
            all: guard.all,
            region: guard.region,
            letters,
        })
    }
}

/// Entries of a table.
#[derive(Drop)]
struct Entries<'r, R>(&'r R);

impl<'r, R: MoveRenaming> Resolver for Entries<'r, R> {
    type Item = (R::Letter, R::Letter);

    type Value = (u32, u32);

    ghost value = { λ x. renamed_pair (R.number x.0.now) };

    ghost fault = { λ x. pair_fault (R.fault x.0.now) (R.left_fault x.0.now) };

    fn resolve(
        &self,
        alloc: Global,
        earlier: &[(R::Letter, R::Letter)],
        entry: &(R::Letter, R::Letter),
    ) -> Result<(u32, u32), ModelFault> {
        let from = self.0.letter(alloc, &entry.0)?;
        self.0.check_entry(alloc, earlier, entry)?;
        let to = self.0.letter(alloc, &entry.1)?;
        Ok((from, to))
    }
}

/// The numbers of two letters.
fn rename_two<R: Renaming>(
    alloc: Global,
    renaming: &R,
    a: &R::Letter,
    b: &R::Letter,
) -> Result<(u32, u32), ModelFault>
    ensures { IsOutcome (first_fault_of (λ _. R.fault renaming.now) [] (a.now ∷ b.now ∷ []))
        (R.number renaming.now a.now, R.number renaming.now b.now) result }
{
    let first = renaming.letter(alloc, a)?;
    let second = renaming.letter(alloc, b)?;
    Ok((first, second))
}

/// The numbers of four letters.
fn rename_four<R: Renaming>(
    alloc: Global,
    renaming: &R,
    a: &R::Letter,
    b: &R::Letter,
    c: &R::Letter,
    d: &R::Letter,
) -> Result<(u32, u32, u32, u32), ModelFault>
    ensures { IsOutcome (first_fault_of (λ _. R.fault renaming.now) [] (a.now ∷ b.now ∷ c.now ∷ d.now ∷ []))
        (R.number renaming.now a.now, R.number renaming.now b.now, R.number renaming.now c.now, R.number renaming.now d.now) result }
{
    let (a, b) = rename_two(alloc, renaming, a, b)?;
    let (c, d) = rename_two(alloc, renaming, c, d)?;
    Ok((a, b, c, d))
}

/// A move of a position.
fn rename_at<R: MoveRenaming>(
    alloc: Global,
    renaming: &R,
    from: &R::Letter,
    to: &R::Letter,
    guards: &[AnyGuard<R::Letter>],
    entries: &[(R::Letter, R::Letter)],
) -> Result<Move, ModelFault>
    ensures { IsOutcome (option_or (first_fault_of (λ _. R.fault renaming.now) [] (from.now ∷ to.now ∷ []))
        (option_or (first_fault_of (λ _ guard. first_fault_of (λ _. R.fault renaming.now) [] guard.letters) [] guards.now)
        (first_fault_of (pair_fault (R.fault renaming.now) (R.left_fault renaming.now)) [] entries.now)))
        (At (R.number renaming.now from.now) (R.number renaming.now to.now) (map (renamed_guard (R.number renaming.now)) guards.now)
        (map (renamed_pair (R.number renaming.now)) entries.now)) result }
{
    let (from, to) = rename_two(alloc, renaming, from, to)?;
    let guards = resolve_each(alloc, &Guards(renaming), guards)?;
    let map = resolve_each(alloc, &Entries(renaming), entries)?;
    Ok(Move::At {
        from,
        to,
        guards,
        map,
    })
}

/// A move of a stack.
fn rename_stack<R: Renaming>(
    alloc: Global,
    renaming: &R,
    pop: &Option<R::Letter>,
    push: &[R::Letter],
) -> Result<Move, ModelFault>
    ensures { IsOutcome
        (option_or (option_map_or (R.fault renaming.now) pop.now None) (first_fault_of (λ _. R.fault renaming.now) [] push.now))
        (Stack (option_map (R.number renaming.now) pop.now) (map (R.number renaming.now) push.now)) result }
{
    let pop = match pop {
        Some(letter) => Some(renaming.letter(alloc, letter)?),
        None => None,
    };
    let push = resolve_each(alloc, &Letters(renaming), push)?;
    Ok(Move::Stack { pop, push })
}

/// The move with each letter replaced by its number, or the first fault in the order of the text.
pub fn rename_move<R: MoveRenaming>(
    alloc: Global,
    renaming: &R,
    body: &AnyMove<R::Letter, R::Set>,
) -> Result<Move, ModelFault>
    ensures { IsOutcome (move_fault (R.fault renaming.now) (R.left_fault renaming.now) (R.letters renaming.now) body.now)
        (renamed (R.number renaming.now) (R.numbers renaming.now) body.now) result }
{
    match body {
        AnyMove::At {
            from,
            to,
            guards,
            map,
        } => rename_at(alloc, renaming, from, to, guards.as_slice(), map.as_slice()),
        AnyMove::Pair { a, b, c, d } => {
            let numbers = rename_four(alloc, renaming, a, b, c, d);
            numbers.map(|(a, b, c, d)| Move::Pair { a, b, c, d })
        }
        AnyMove::Ring { a, b, c, d } => {
            let numbers = rename_four(alloc, renaming, a, b, c, d);
            numbers.map(|(a, b, c, d)| Move::Ring { a, b, c, d })
        }
        AnyMove::Two { a, b, c, d } => {
            let numbers = rename_four(alloc, renaming, a, b, c, d);
            numbers.map(|(a, b, c, d)| Move::Two { a, b, c, d })
        }
        AnyMove::Set { from, to } => {
            rename_two(alloc, renaming, from, to).map(|(from, to)| Move::Set { from, to })
        }
        AnyMove::Send { letter } => renaming
            .letter(alloc, letter)
            .map(|letter| Move::Send { letter }),
        AnyMove::Recv { letter } => renaming
            .letter(alloc, letter)
            .map(|letter| Move::Recv { letter }),
        AnyMove::Stack { pop, push } => rename_stack(alloc, renaming, pop, push.as_slice()),
        AnyMove::Spawn { letter } => renaming
            .letter(alloc, letter)
            .map(|letter| Move::Spawn { letter }),
        AnyMove::Exit { letter } => renaming
            .letter(alloc, letter)
            .map(|letter| Move::Exit { letter }),
        AnyMove::Lose { letters } => renaming
            .set(alloc, letters)
            .map(|letters| Move::Lose { letters }),
    }
}
