//! A library in memory: a list of names with their texts, searched from the front, whose calls fail as a list says. A read costs the
//! names before the one that is asked for, and a copy of its text.

ghost use Rattle.std.specs.Prelude.{◌≡◌, ◌^◌, ◌<◌, None, string_bytes, bytes_eq, find, option_copied, option_map};

use crate::last_read::LastRead;
use crate::traits::{Library, ReadFail};
use std::alloc::Global;
use std::marker::Model;

/// A library of texts in memory, which fails at chosen calls.
#[derive(Drop)]
pub struct MemoryLibrary {
    alloc: Global,
    texts: Vec<(String, Vec<u8>)>,
    failing: Vec<u64>,
    calls: u64,
    faults: u64,
    last: Option<LastRead>,
}

impl Model for MemoryLibrary {
    ghost use Rattle.armc_io.specs.MemoryLibrary.{LibraryContents, named_bytes};

    ghost Value = { LibraryContents };

    ghost view = { λ l. record {
      texts = named_bytes l.texts.items;
      failing = l.failing.items;
      calls = l.calls;
      faults = l.faults;
      last = l.last;
    } };
}

impl MemoryLibrary {
    ghost use Rattle.armc_io.specs.MemoryLibrary.{named_bytes, text_of, fails_next, after_failure};

    /// The library of these names and texts, of which the calls numbered in `failing` fail, counted from 0. Of a name given
    /// twice the first counts.
    pub fn new(alloc: Global, texts: Vec<(String, Vec<u8>)>, failing: Vec<u64>) -> MemoryLibrary
        ensures { result ≡ record { texts = named_bytes texts.items; failing = failing.items; calls = 0; faults = 0; last = None } }
    {
        MemoryLibrary {
            alloc,
            texts,
            failing,
            calls: 0,
            faults: 0,
            last: None,
        }
    }

    /// The first text of that name.
    fn find(&self, name: &str) -> Option<&[u8]>
        ensures { option_copied result ≡ text_of self.now.texts name.now }
    {
        first_text(&self.texts, name)
    }

    fn fails_next(&self) -> bool
        ensures { result ≡ fails_next self.now }
    {
        self.failing.iter().any(|number| *number == self.calls)
    }

    fn fail(&mut self, name: String) -> ReadFail
        ensures answer { result ≡ ReadFail.Failed }
        ensures after { self.new ≡ after_failure self.old (string_bytes name) }
    {
        self.calls = self.calls.saturating_add(1);
        self.faults = self.faults.saturating_add(1);
        self.last = Some(LastRead::new(name, true, 0));
        ReadFail::Failed
    }
}

/// The text of the first pair with that name.
fn first_text<'a>(texts: &'a [(String, Vec<u8>)], name: &str) -> Option<&'a [u8]>
    ensures { option_copied result ≡ option_map (λ t. t.1.items)
        (find (λ t. bytes_eq (string_bytes t.0) name.now) texts.now) }
{
    texts
        .iter()
        .find(|named| named.0.as_str() == name)
        .map(|named| named.1.as_slice())
}

impl Library for MemoryLibrary {
    ghost use Rattle.armc_io.specs.MemoryLibrary.{library_state, ReadsContents};

    ghost state = { library_state };

    fn read_all(&mut self, name: &str, limit: u64) -> Result<Vec<u8>, ReadFail>
        requires { limit < 2 ^ 63 }
        ensures { ReadsContents self.old self.new name.now limit result }
    {
        let owned = String::from_str(self.alloc, name)?;
        if self.fails_next() {
            return Err(self.fail(owned));
        }
        let Some(text) = self.find(name) else {
            return Err(self.fail(owned));
        };
        if text.len() as u64 > limit {
            self.calls = self.calls.saturating_add(1);
            self.last = Some(LastRead::new(owned, false, limit + 1));
            return Err(ReadFail::TooLong);
        }
        let bytes = Vec::from_slice(self.alloc, text)?;
        self.calls = self.calls.saturating_add(1);
        self.last = Some(LastRead::new(owned, false, bytes.len() as u64));
        Ok(bytes)
    }
}
