//! A sink over a writer: one loop over `write`, which appends all bytes or, after a fault, a prefix. It costs one call for each piece
//! that the writer takes.

ghost use Rattle.std.specs.Prelude.{◌≡◌};
ghost use Rattle.armc_io.specs.Sink.{WritesPrefix};

use crate::traits::{Sink, SinkFail};
use std::io::Write;
use std::marker::Model;

/// A sink over a writer, such as standard output.
#[derive(Drop)]
pub struct StreamSink<W> {
    writer: W,
    faults: u64,
}

impl<W> Model for StreamSink<W> {
    ghost use Rattle.std.specs.Prelude.{ℕ};

    ghost Value = { W × ℕ };

    ghost view = { λ s. (s.writer, s.faults) };
}

impl<W> StreamSink<W> {
    ghost use Rattle.std.specs.Prelude.{◌≡◌};

    /// The sink over `writer`, with no fault so far.
    pub fn new(writer: W) -> StreamSink<W>
        ensures { result ≡ (writer, 0) }
    {
        StreamSink { writer, faults: 0 }
    }
}

/// Writes until all bytes are taken. At `Err` the bytes before the failed call were taken.
fn write_whole<W: Write>(writer: &mut W, bytes: &[u8]) -> Result<(), SinkFail>
    ensures { WritesPrefix (W.contents writer.old) (W.contents writer.new) bytes.now result }
{
    let mut at = 0;
    'bytes: while at < bytes.len() {
        match writer.write(&bytes[at..]) {
            Ok(0) | Err(_) => return Err(SinkFail::Failed),
            Ok(n) => at += n,
        }
    }
    Ok(())
}

impl<W: Write> Sink for StreamSink<W> {
    ghost use Rattle.armc_io.specs.Sink.{stream_state, counted};

    ghost state = { λ s. stream_state (W.contents s.0) s.1 };

    fn put(&mut self, bytes: &[u8]) -> Result<(), SinkFail>
        ensures answer { WritesPrefix (W.contents self.old.0) (W.contents self.new.0) bytes.now result }
        ensures faults { self.new.1 ≡ counted self.old.1 result }
    {
        let answer = write_whole(&mut self.writer, bytes);
        if answer.is_err() {
            self.faults = self.faults.saturating_add(1);
        }
        answer
    }
}
