//! A sink in memory with a capacity, whose calls fail as a list says.
//! It tells its bytes; a call costs the bytes that it takes.

ghost use Rattle.std.specs.Prelude.{◌≡◌, [], IfOk, is_ok};

use crate::traits::{Sink, SinkFail};
use std::alloc::{AllocError, Global};
use std::marker::Model;

/// A sink in memory, of a fixed capacity, which fails at chosen calls.
#[derive(Drop)]
pub struct MemorySink {
    capacity: usize,
    failing: Vec<(u64, u64)>,
    calls: u64,
    faults: u64,
    written: Vec<u8>,
}

impl Model for MemorySink {
    ghost use Rattle.std.specs.Prelude.{◌≤◌, vec_len, vec_capacity};
    ghost use Rattle.armc_io.specs.MemorySink.{SinkContents};

    ghost Value = { SinkContents };

    ghost view = { λ s. record {
      capacity = s.capacity;
      failing = s.failing.items;
      calls = s.calls;
      faults = s.faults;
      written = s.written.items;
    } };

    ghost invariant = { λ s. (vec_len s.written ≤ s.capacity) × (s.capacity ≤ vec_capacity s.written) };
}

impl MemorySink {
    ghost use Rattle.armc_io.specs.MemorySink.{failing_next};

    /// An empty sink with room for `capacity` bytes, which are taken from memory now. A pair `(k, n)` of `failing` makes call
    /// number `k`, counted from 0, take at most `n` bytes and fail. Of two pairs for one call the first counts.
    pub fn new(
        alloc: Global,
        capacity: usize,
        failing: Vec<(u64, u64)>,
    ) -> Result<MemorySink, AllocError>
        ensures { IfOk result (λ sink. sink ≡ record {
          capacity = capacity;
          failing = failing.items;
          calls = 0;
          faults = 0;
          written = [];
        }) }
    {
        Ok(MemorySink {
            capacity,
            failing,
            calls: 0,
            faults: 0,
            written: Vec::with_capacity(alloc, capacity)?,
        })
    }

    /// The bytes written so far.
    pub fn bytes(&self) -> &[u8]
        ensures { result.now ≡ self.now.written }
    {
        self.written.as_slice()
    }

    fn failing_next(&self) -> Option<u64>
        ensures { result ≡ failing_next self.now }
    {
        self.failing
            .iter()
            .find(|pair| pair.0 == self.calls)
            .map(|pair| pair.1)
    }
}

impl Sink for MemorySink {
    ghost use Rattle.armc_io.specs.MemorySink.{sink_state, after_put, takes_whole};

    ghost state = { sink_state };

    fn put(&mut self, bytes: &[u8]) -> Result<(), SinkFail>
        ensures answer { is_ok result ≡ takes_whole self.old bytes.now }
        ensures after { self.new ≡ after_put self.old bytes.now }
    {
        let room = self.capacity - self.written.len();
        let failing = self.failing_next();
        let most = match failing {
            Some(n) if n < room as u64 => n as usize,
            _ => room,
        };
        let piece = &bytes[..most.min(bytes.len())];
        self.written.extend_from_slice(piece).unwrap();
        self.calls = self.calls.saturating_add(1);
        if failing.is_none() && bytes.len() <= room {
            return Ok(());
        }
        self.faults = self.faults.saturating_add(1);
        Err(SinkFail::Failed)
    }
}
