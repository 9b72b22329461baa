//! Moves of cells, channels and stacks as transducers: one transducer relates the lists before and after a move, of every length.
//! A machine has one state more than it exchanges letters at the ends, and two where a letter leaves a list wherever it stands.
#![tactic(auto)]

mod cut;
mod machine;

ghost use Rattle.std.specs.Prelude.{◌≡◌, ◌↔◌, ◌+◌, ◌<◌, ◌≤◌, ◌^◌, ℕ, List, All, IfOk, IfSome, IsTrue};
ghost use Rattle.protocol_syntax.specs.declared.protocol.Move.TheVariants.{Set};
ghost use Rattle.protocol_model.specs.System.{IsValidMove, belongs_to};
ghost use Rattle.protocol_model.specs.Moves.{IsMove};
ghost use Rattle.protocol_model.specs.Raised.{IsRaisedMove};
ghost use Rattle.transducers.specs.Transducer.{Relates};
ghost use Rattle.memory_moves.specs.private.Machine.{reading, writing, pop_prefix, stack_prefix};

pub use cut::compile_cut;
use machine::copy_between;
use protocol_model::{Move, SectionLetters};
use protocol_syntax::Kind;
use std::alloc::{AllocError, Global};
use transducers::{Label, Transducer};

/// The transducer over `alphabet.letters` letters that relates a cell's list before and after its letter changes from `from` to `to`,
/// each letter raised by `alphabet.offset`. The section has `alphabet.count` letters. `AllocError` where memory runs out.
pub fn compile_cell(
    alloc: Global,
    from: u32,
    to: u32,
    alphabet: SectionLetters,
) -> Result<Transducer, AllocError>
    requires valid { IsValidMove alphabet.count (Set from to) }
    requires fits { alphabet.offset + alphabet.count ≤ alphabet.letters }
    ensures letters { IfOk result (λ t. t.letters ≡ alphabet.letters) }
    ensures relates { IfOk result (λ t. (u w : List ℕ) → Relates t u w
        ↔ IsRaisedMove (IsMove (Set from to)) alphabet.offset alphabet.count u w) }
{
    let change = Label::exchange(from + alphabet.offset, to + alphabet.offset);
    let without_copies = SectionLetters {
        count: 0,
        ..alphabet
    };
    copy_between(alloc, &[change], None, without_copies)
}

/// The transducer over `alphabet.letters` letters that relates a channel's lists before and after a letter is sent, received or lost,
/// each letter raised by `alphabet.offset`. The section has `alphabet.count` letters. `AllocError` where memory runs out.
pub fn compile_channel(
    alloc: Global,
    step: &Move,
    alphabet: SectionLetters,
) -> Result<Transducer, AllocError>
    requires channel { IsTrue (belongs_to step.now Kind.LossyChannel) }
    requires valid { IsValidMove alphabet.count step.now }
    requires fits { alphabet.offset + alphabet.count ≤ alphabet.letters }
    ensures letters { IfOk result (λ t. t.letters ≡ alphabet.letters) }
    ensures relates { IfOk result (λ t. (u w : List ℕ) → Relates t u w
        ↔ IsRaisedMove (IsMove step.now) alphabet.offset alphabet.count u w) }
{
    match step {
        Move::Send { letter } => {
            let sent = writing(*letter + alphabet.offset);
            copy_between(alloc, &[], Some(sent), alphabet)
        }
        Move::Recv { letter } => {
            let received = reading(*letter + alphabet.offset);
            copy_between(alloc, &[received], None, alphabet)
        }
        Move::Lose { letters } => compile_cut(alloc, letters.as_slice(), alphabet),
        _ => unreachable!(),
    }
}

/// The transducer over `alphabet.letters` letters that relates a stack's lists before and after its top is popped and letters are
/// pushed, each letter raised by `alphabet.offset`. The section has `alphabet.count` letters. `AllocError` where memory runs out.
pub fn compile_stack(
    alloc: Global,
    step: &Move,
    alphabet: SectionLetters,
) -> Result<Transducer, AllocError>
    requires stack { IsTrue (belongs_to step.now Kind.Stack) }
    requires valid { IsValidMove alphabet.count step.now }
    requires fits { alphabet.offset + alphabet.count ≤ alphabet.letters }
    ensures letters { IfOk result (λ t. t.letters ≡ alphabet.letters) }
    ensures relates { IfOk result (λ t. (u w : List ℕ) → Relates t u w
        ↔ IsRaisedMove (IsMove step.now) alphabet.offset alphabet.count u w) }
{
    match step {
        Move::Stack { pop, push } => {
            let prefix = stack_prefix(alloc, *pop, push.as_slice(), alphabet)?;
            copy_between(alloc, prefix.as_slice(), None, alphabet)
        }
        _ => unreachable!(),
    }
}

/// The label that only reads the letter.
fn reading(letter: u32) -> Label
    ensures { result ≡ reading letter }
{
    Label {
        read: Some(letter),
        write: None,
    }
}

/// The label that only writes the letter.
fn writing(letter: u32) -> Label
    ensures { result ≡ writing letter }
{
    Label {
        read: None,
        write: Some(letter),
    }
}

/// The labels that read the popped letter, if there is one, and then write the pushed ones, each raised by `alphabet.offset`.
fn stack_prefix(
    alloc: Global,
    pop: Option<u32>,
    push: &[u32],
    alphabet: SectionLetters,
) -> Result<Vec<Label>, AllocError>
    requires pops { IfSome pop (λ a. a < alphabet.count) }
    requires pushes { All (λ a. a < alphabet.count) push.now }
    requires fits { alphabet.offset + alphabet.count < 2 ^ 32 }
    ensures { IfOk result (λ labels. labels.items ≡ stack_prefix alphabet.offset pop push.now) }
{
    let mut labels = pop_prefix(alloc, pop, alphabet)?;
    'pushed: for letter in push {
        labels.push(writing(*letter + alphabet.offset))?;
    }
    Ok(labels)
}

/// The label that reads the popped letter, if there is one, raised by `alphabet.offset`.
fn pop_prefix(
    alloc: Global,
    pop: Option<u32>,
    alphabet: SectionLetters,
) -> Result<Vec<Label>, AllocError>
    requires pops { IfSome pop (λ a. a < alphabet.count) }
    requires fits { alphabet.offset + alphabet.count < 2 ^ 32 }
    ensures { IfOk result (λ labels. labels.items ≡ pop_prefix alphabet.offset pop) }
{
    match pop {
        Some(letter) => Ok(vec![in alloc; reading(letter + alphabet.offset)]?),
        None => Ok(Vec::new(alloc)),
    }
}
