//! Array moves as transducers: one transducer relates the arrays before and after a move, of every length.
//! A transducer has at most 32 states: it keeps only whether the move has happened, and of `at` which of the four guards are met.
#![tactic(auto)]

mod fixed;
mod guard_table;
mod guarded;

ghost use Rattle.std.specs.Prelude.{◌≡◌, ◌↔◌, ◌+◌, ◌≤◌, ℕ, List, IfOk, IsTrue};
ghost use Rattle.protocol_model.specs.System.{IsValidMove, belongs_to};
ghost use Rattle.protocol_model.specs.Moves.{IsMove};
ghost use Rattle.transducers.specs.Transducer.{Relates};
ghost use Rattle.protocol_model.specs.Raised.{IsRaisedMove};

use fixed::compile_fixed;
use guarded::compile_at;
use memory_moves::{compile_channel, compile_cut};
use protocol_model::{Move, SectionLetters};
use protocol_syntax::Kind;
use std::alloc::{AllocError, Global};
use transducers::Transducer;

/// The transducer over `alphabet.letters` letters that relates the arrays before and after the array move, each letter raised by
/// `alphabet.offset`. The section of the move has `alphabet.count` letters. `AllocError` where memory runs out.
pub fn compile_array(
    alloc: Global,
    step: &Move,
    alphabet: SectionLetters,
) -> Result<Transducer, AllocError>
    requires array { IsTrue (belongs_to step.now Kind.Array) }
    requires valid { IsValidMove alphabet.count step.now }
    requires fits { alphabet.offset + alphabet.count ≤ alphabet.letters }
    ensures letters { IfOk result (λ t. t.letters ≡ alphabet.letters) }
    ensures relates { IfOk result (λ t. (u w : List ℕ) → Relates t u w
        ↔ IsRaisedMove (IsMove step.now) alphabet.offset alphabet.count u w) }
{
    match step {
        Move::At {
            from,
            to,
            guards,
            map,
        } => {
            compile_at(
                alloc,
                *from,
                *to,
                guards.as_slice(),
                map.as_slice(),
                alphabet,
            )
        }
        Move::Pair { .. } | Move::Ring { .. } | Move::Two { .. } => {
            compile_fixed(alloc, step, alphabet)
        }
        Move::Spawn { letter } => {
            let appended = Move::Send { letter: *letter };
            compile_channel(alloc, &appended, alphabet)
        }
        Move::Exit { letter } => compile_cut(alloc, &[*letter], alphabet),
        _ => unreachable!(),
    }
}
