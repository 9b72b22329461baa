//! What a rule does to each section as a transducer.
//! A section that moves has a transducer of few states, one that stays has a copy of one state or two.

ghost use Rattle.std.specs.Prelude.{◌≡◌, ◌↔◌, ◌+◌, ◌^◌, ◌<◌, ◌≤◌, ℕ, List, Some, None, IfOk, MatchOption, length};
ghost use Rattle.std.specs.List.{AllByRecursion};
ghost use Rattle.protocol_syntax.specs.declared.limits.TheConstants.{MAX_LETTERS, MAX_SECTIONS};
ghost use Rattle.protocol_model.specs.System.{Move, IsValidMove, IsValidPart, letter_count, total_letters};
ghost use Rattle.protocol_model.specs.Moves.{IsMove};
ghost use Rattle.protocol_model.specs.Raised.{IsRaisedMove};
ghost use Rattle.protocol_model.specs.Steps.{move_of};
ghost use Rattle.transducers.specs.Transducer.{Relates};
ghost use Rattle.step_compiler.specs.Sections.{Stays, IsMoveOf, IsSectionTransducer, AreSectionTransducers};

use array_moves::compile_array;
use memory_moves::{compile_cell, compile_channel, compile_stack};
use protocol_model::{Move, Section, SectionLetters};
use protocol_syntax::Kind;
use std::alloc::{AllocError, Global};
use transducers::{Transducer, copy_any, copy_one};

/// For each section the transducer, over `letters` letters, of its move among `moves`, or of no move where there is none.
/// The letters of a section stand behind those of the sections before.
pub(crate) fn compile_sections(
    alloc: Global,
    sections: &[Section],
    moves: &[(u32, Move)],
    letters: u32,
) -> Result<Vec<Transducer>, AllocError>
    requires valid { AllByRecursion (IsValidPart sections.now) moves.now }
    requires fits { total_letters sections.now < letters }
    requires limit { letters ≤ MAX_LETTERS + 1 }
    requires few { length sections.now ≤ MAX_SECTIONS }
    ensures { IfOk result (λ parts. AreSectionTransducers moves.now letters 0 0 sections.now parts.items) }
{
    let mut parts = Vec::with_capacity(alloc, sections.len())?;
    let mut offset = 0;
    'sections: for (number, section) in sections.iter().enumerate() {
        let part = compile_section(alloc, section, moves, number as u32, letters, offset)?;
        parts.push(part)?;
        offset += section.letter_count();
    }
    Ok(parts)
}

/// The transducer of the section of this number: that of its move among `moves`, or of no move.
fn compile_section(
    alloc: Global,
    section: &Section,
    moves: &[(u32, Move)],
    number: u32,
    letters: u32,
    offset: u32,
) -> Result<Transducer, AllocError>
    requires valid { (m : Move) → move_of moves.now number ≡ Some m → IsMoveOf section.now m }
    requires fits { offset + letter_count section.now < letters }
    requires limit { letters ≤ MAX_LETTERS + 1 }
    ensures { IfOk result (IsSectionTransducer section.now (move_of moves.now number) letters offset) }
{
    let alphabet = SectionLetters {
        letters,
        offset,
        count: section.letter_count(),
    };
    match find_move(moves, number) {
        Some(step) => compile_move(alloc, step, alphabet),
        None => compile_copy(alloc, section.kind, alphabet),
    }
}

/// The move of the section of this number, if there is one. At most one move belongs to a section, and there are few.
fn find_move(moves: &[(u32, Move)], number: u32) -> Option<&Move>
    ensures { MatchOption result (move_of moves.now number ≡ None) (λ step. move_of moves.now number ≡ Some step.now) }
{
    'moves: for part in moves {
        if part.0 == number {
            return Some(&part.1);
        }
    }
    None
}

/// The transducer of the lists before and after the move.
fn compile_move(
    alloc: Global,
    step: &Move,
    alphabet: SectionLetters,
) -> Result<Transducer, AllocError>
    requires valid { IsValidMove alphabet.count step.now }
    requires fits { alphabet.offset + alphabet.count ≤ alphabet.letters }
    ensures letters { IfOk result (λ t. t.letters ≡ alphabet.letters) }
    ensures relates { IfOk result (λ t. (u w : List ℕ) → Relates t u w
        ↔ IsRaisedMove (IsMove step.now) alphabet.offset alphabet.count u w) }
{
    match step {
        Move::Set { from, to } => compile_cell(alloc, *from, *to, alphabet),
        Move::Send { .. } | Move::Recv { .. } | Move::Lose { .. } => {
            compile_channel(alloc, step, alphabet)
        }
        Move::Stack { .. } => compile_stack(alloc, step, alphabet),
        Move::At { .. }
        | Move::Pair { .. }
        | Move::Ring { .. }
        | Move::Two { .. }
        | Move::Spawn { .. }
        | Move::Exit { .. } => compile_array(alloc, step, alphabet),
    }
}

/// The transducer of the lists of a section of this kind that stays.
fn compile_copy(
    alloc: Global,
    kind: Kind,
    alphabet: SectionLetters,
) -> Result<Transducer, AllocError>
    requires fits { alphabet.offset + alphabet.count ≤ alphabet.letters }
    ensures letters { IfOk result (λ t. t.letters ≡ alphabet.letters) }
    ensures relates { IfOk result (λ t. (u w : List ℕ) → Relates t u w
        ↔ IsRaisedMove (Stays kind) alphabet.offset alphabet.count u w) }
{
    match kind {
        Kind::Cell => copy_one(alloc, alphabet.letters, alphabet.offset, alphabet.count),
        Kind::Array | Kind::Channel | Kind::Stack | Kind::LossyChannel => {
            copy_any(alloc, alphabet.letters, alphabet.offset, alphabet.count)
        }
    }
}
