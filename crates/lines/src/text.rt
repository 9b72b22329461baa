//! Texts, read line by line.
//! One loop reads the lines of every text, each once, up to the first that ends the reading.

ghost use Rattle.std.specs.Prelude.{◌≡◌, ◌≢◌, ℕ, List, IfErr, IfOk};
ghost use Rattle.lines.specs.Document.{Answer, Document, HasAnswer, fails, means};
ghost use Rattle.lines.specs.Reading.{HasEffect, IsReading};
ghost use Rattle.lines.specs.declared.fault.Fault.TheVariants.{Memory};

use crate::bytes::cut_at;
use crate::fault::Fault;
use std::alloc::{AllocError, Global};

/// What a line did.
pub enum Next<W> {
    /// It leads on.
    More,
    /// It is the last one.
    End,
    /// This is wrong with it.
    Fails(W),
}

/// A form of texts, by which they are read line by line.
pub trait TextForm {
    type Said: Drop;

    type What: Copy;

    type Read: Drop;

    // What was read before a line.
    ghost Stage: { Type 0 };

    // What each line may be, and what it does.
    ghost document: { Self → Document Stage Self.Said Self.What };

    // What was read is kept as this.
    ghost IsAt: { Self → Stage → Self.Read → Type 0 };

    /// What the line says, or `None` where it may not stand there.
    fn says(
        &self,
        alloc: Global,
        read: &Self::Read,
        line: &[u8],
    ) -> Result<Option<Self::Said>, AllocError>
        ensures { (s : Stage) → IsAt self.now s read.now → IfOk result (IsReading ((document self.now).line s) line.now) };

    /// Does what a line does that says this.
    fn take(
        &self,
        alloc: Global,
        read: &mut Self::Read,
        said: Self::Said,
    ) -> Result<Next<Self::What>, AllocError>
        ensures { (s : Stage) → IsAt self.now s read.old
            → IfOk result (HasEffect (IsAt self.now) ((document self.now).effect s said) s read.new) };
}

/// What the lines of the text lead to, or the first fault of the text.
pub fn read_text<D: TextForm>(
    alloc: Global,
    form: &D,
    start: D::Read,
    text: &[u8],
) -> Result<D::Read, Fault<D::What>>
    requires { D.IsAt form.now (D.document form.now).start start }
    ensures found { IfOk result (λ read. (s : D.Stage) × HasAnswer (D.document form.now) text.now (means s) × D.IsAt form.now s read) }
    ensures fault { IfErr result (λ fault. fault ≢ Memory → HasAnswer (D.document form.now) text.now (fails fault)) }
{
    let _bytes = text.len();
    let mut read = start;
    let mut rest = text;
    let mut number = 1;
    'lines: while let Some((line, after)) = cut_at(rest, b'\n') {
        let said = form.says(alloc, &read, line)?;
        let Some(said) = said else {
            return Err(Fault::BadLine { line: number });
        };
        let next = form.take(alloc, &mut read, said)?;
        match next {
            Next::More => {
                rest = after;
                number += 1;
            }
            Next::End => {
                if after.is_empty() {
                    return Ok(read);
                }
                return Err(Fault::BadLine { line: number + 1 });
            }
            Next::Fails(what) => return Err(Fault::Wrong { what, line: number }),
        }
    }
    Err(Fault::Truncated { line: number })
}

/// A text has one answer: at most one meaning, or at most one first fault, and never both.
pub fn one_answer<D: TextForm>(form: &D)
    ensures { (text : List ℕ) (a b : Answer D.Stage D.What) → HasAnswer (D.document form.now) text a
        → HasAnswer (D.document form.now) text b → a ≡ b }
{}
