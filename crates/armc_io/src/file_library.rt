//! The library of the operating system: files by their names, and standard input for `-`. A read takes at most the limit and one byte
//! more, whatever the system does, in one call for each piece that it gives.

ghost use Rattle.std.specs.Prelude.{◌≡◌, ◌≢◌, ◌^◌, ◌<◌, ◌≤◌, [], Err, None, OnOk, vec_len};
ghost use Rattle.std.specs.Io.KnownBytes.{Consumes, IsAtEnd};

use crate::last_read::LastRead;
use crate::traits::{Library, ReadFail};
use std::fs::File;
use std::io::{Input, Read};
use std::marker::Model;
use std::rt::Files;

/// How many bytes one call of the system is asked for.
const CHUNK: usize = 8192;

/// The library of the files of the system. The name `-` stands for standard input.
#[derive(Drop)]
pub struct FileLibrary<R> {
    runtime: R,
    faults: u64,
    last: Option<LastRead>,
}

impl<R> Model for FileLibrary<R> {
    ghost use Rattle.armc_io.specs.FileLibrary.{FileReads};

    ghost Value = { FileReads };

    ghost view = { λ l. record { faults = l.faults; last = l.last } };
}

impl<R> FileLibrary<R> {
    /// The library that reads by `runtime`, with no fault and no call so far.
    pub fn new(runtime: R) -> FileLibrary<R>
        ensures { result ≡ record { faults = 0; last = None } }
    {
        FileLibrary {
            runtime,
            faults: 0,
            last: None,
        }
    }
}

/// Reads until the end, or until there are `most` bytes. At `Failed` the bytes read so far are there.
fn read_up_to<T: Read>(reader: &mut T, bytes: &mut Vec<u8>, most: u64) -> Result<(), ReadFail>
    requires { vec_len bytes.old ≡ 0 }
    ensures bound { vec_len bytes.new ≤ most }
    ensures cause { result ≢ Err ReadFail.TooLong }
    ensures whole { OnOk result (Consumes (T.remaining reader.old) (T.remaining reader.new) bytes.new.items) }
    ensures end { OnOk result (vec_len bytes.new < most → IsAtEnd (T.remaining reader.new)) }
{
    let mut buffer = [0u8; CHUNK];
    'chunks: while (bytes.len() as u64) < most {
        let left = most - bytes.len() as u64;
        let room = left.min(CHUNK as u64) as usize;
        match reader.read(&mut buffer[..room]) {
            Ok(0) => return Ok(()),
            Ok(n) => bytes.extend_from_slice(&buffer[..n])?,
            Err(_) => return Err(ReadFail::Failed),
        }
    }
    Ok(())
}

/// Reads a file, or standard input, until the end or until there are `most` bytes.
fn read_name<R: Files + Input>(
    runtime: &R,
    name: &str,
    bytes: &mut Vec<u8>,
    most: u64,
) -> Result<(), ReadFail>
    requires { vec_len bytes.old ≡ 0 }
    ensures bound { vec_len bytes.new ≤ most }
    ensures cause { result ≢ Err ReadFail.TooLong }
{
    if name == "-" {
        return read_up_to(&mut runtime.reader(), bytes, most);
    }
    let Ok(mut file) = File::open(runtime, name) else {
        return Err(ReadFail::Failed);
    };
    read_up_to(&mut file, bytes, most)
}

impl<R: Files + Input + AllocGlobal> Library for FileLibrary<R> {
    ghost use Rattle.armc_io.specs.FileLibrary.{file_state, ReadsFile};

    ghost state = { file_state };

    fn read_all(&mut self, name: &str, limit: u64) -> Result<Vec<u8>, ReadFail>
        requires { limit < 2 ^ 63 }
        ensures { ReadsFile self.old self.new name.now limit result }
    {
        let owned = String::from_str(self.runtime.alloc(), name)?;
        let mut bytes = Vec::new(self.runtime.alloc());
        let read = read_name(&self.runtime, name, &mut bytes, limit + 1);
        let taken = bytes.len() as u64;
        match read {
            Err(ReadFail::Memory) => Err(ReadFail::Memory),
            Err(_) => {
                self.faults = self.faults.saturating_add(1);
                self.last = Some(LastRead::new(owned, true, taken));
                Err(ReadFail::Failed)
            }
            Ok(()) => {
                self.last = Some(LastRead::new(owned, false, taken));
                if taken > limit {
                    Err(ReadFail::TooLong)
                } else {
                    Ok(bytes)
                }
            }
        }
    }
}
