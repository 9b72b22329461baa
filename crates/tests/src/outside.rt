//! A library and sinks that fail in the middle, in memory and over a writer that takes a little at a time.
//! Each reads or writes a few bytes.

use armc_io::{Library, MemoryLibrary, MemorySink, ReadFail, Sink, StreamSink};
use std::alloc::{AllocError, Global};
use std::io::{self, Write};
use std::test::Fail;

/// The text with its name.
fn named(alloc: Global, name: &str, text: &[u8]) -> Result<(String, Vec<u8>), AllocError> {
    let name = String::from_str(alloc, name)?;
    Ok((name, text.to_vec(alloc)?))
}

/// The texts with their names.
pub(crate) fn texts(
    alloc: Global,
    all: &[(&str, &[u8])],
) -> Result<Vec<(String, Vec<u8>)>, AllocError> {
    let mut texts = Vec::new(alloc);
    'texts: for (name, text) in all {
        texts.push(named(alloc, name, text)?)?;
    }
    Ok(texts)
}

// Two names, of which one is given twice. Calls 2 and 4 fail.
fn two_texts(alloc: Global) -> Result<MemoryLibrary, AllocError> {
    let texts = texts(
        alloc,
        &[
            ("a", b"12345".as_slice()),
            ("b", b"".as_slice()),
            ("a", b"6".as_slice()),
        ],
    )?;
    Ok(MemoryLibrary::new(alloc, texts, [2, 4].to_vec(alloc)?))
}

/// A read: the name, the most bytes, and what comes.
type Read = (&'static str, u32, Result<&'static [u8], ReadFail>);

/// Whether the read gives what is told.
fn is_read<L: Library>(
    library: &mut L,
    name: &str,
    limit: u32,
    told: Result<&[u8], ReadFail>,
) -> bool {
    match (library.read_all(name, u64::from(limit)), told) {
        (Ok(text), Ok(wanted)) => text.as_slice() == wanted,
        (Err(fail), Err(wanted)) => fail == wanted,
        _ => false,
    }
}

/// How many of the reads give what is told, before one that does not.
fn reads_as_told<L: Library>(library: &mut L, reads: &[Read]) -> usize {
    'reads: for (number, (name, limit, told)) in reads.iter().enumerate() {
        if !is_read(library, name, *limit, *told) {
            return number;
        }
    }
    reads.len()
}

const TWO_TEXTS: [Read; 7] = [
    ("a", 5, Ok(b"12345")),
    ("b", 0, Ok(b"")),
    ("a", 5, Err(ReadFail::Failed)),
    ("a", 4, Err(ReadFail::TooLong)),
    ("b", 9, Err(ReadFail::Failed)),
    ("c", 9, Err(ReadFail::Failed)),
    ("a", 6, Ok(b"12345")),
];

#[test]
fn memory_library_reads(rt: HostRuntime) -> Result<(), Fail> {
    let mut library = two_texts(rt.alloc())?;
    assert!(rt; reads_as_told(&mut library, &TWO_TEXTS) == 7);
    Ok(())
}

/// A piece, and whether all of it is taken.
type Piece = (&'static [u8], bool);

/// How many of the pieces are taken or not as told, before one that is not.
fn puts_as_told<S: Sink>(sink: &mut S, pieces: &[Piece]) -> usize {
    'pieces: for (number, (bytes, is_taken)) in pieces.iter().enumerate() {
        if sink.put(bytes).is_ok() != *is_taken {
            return number;
        }
    }
    pieces.len()
}

const BEGIN: [Piece; 2] = [(b"abc", true), (b"def", false)];

const END: [Piece; 4] = [(b"", true), (b"f", false), (b"gh", true), (b"i", false)];

/// Whether the sink of eight bytes, of which three calls fail, takes what it has to.
fn takes_as_told(sink: &mut MemorySink) -> bool {
    puts_as_told(sink, &BEGIN) == 2
        && sink.bytes() == b"abcde".as_slice()
        && puts_as_told(sink, &END) == 4
        && sink.bytes() == b"abcdefgh".as_slice()
}

#[test]
fn memory_sink_takes(rt: HostRuntime) -> Result<(), Fail> {
    let failing = [(1, 2), (1, 3), (3, 9)].to_vec(rt.alloc())?;
    let mut sink = MemorySink::new(rt.alloc(), 8, failing)?;
    assert!(rt; takes_as_told(&mut sink));
    Ok(())
}

// Takes at most two bytes a call, and nothing once it holds five.
#[derive(Drop)]
struct SlowWriter {
    taken: Vec<u8>,
}

impl Write for SlowWriter {
    fn write(&mut self, buf: &[u8]) -> io::Result<usize> {
        let room = 5usize.saturating_sub(self.taken.len());
        let n = buf.len().min(room).min(2);
        self.taken.extend_from_slice(&buf[..n])?;
        Ok(n)
    }

    fn flush(&mut self) -> io::Result<()> {
        Ok(())
    }
}

const PIECES: [Piece; 4] = [(b"abc", true), (b"", true), (b"def", false), (b"", true)];

#[test]
fn stream_sink_writes(rt: HostRuntime) -> Result<(), Fail> {
    let mut writer = SlowWriter {
        taken: Vec::new(rt.alloc()),
    };
    let mut sink = StreamSink::new(&mut writer);
    let told = puts_as_told(&mut sink, &PIECES);
    drop(sink);
    assert!(rt; told == 4 && writer.taken.as_slice() == b"abcde".as_slice());
    Ok(())
}
