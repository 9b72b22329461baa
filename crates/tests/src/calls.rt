//! Calls of the whole program over a library and sinks in memory, and whether they come to what is told.
//! They cost what the commands cost on small protocols.

use crate::gates::Meeting;
use crate::outside::texts;
use armc_commands::{Status, run};
use armc_io::{MemoryLibrary, MemorySink};
use std::alloc::{AllocError, Global};
use std::test::Fail;
use std::thread::Threads;

/// A protocol in which nobody moves to the bad letter.
pub(crate) const FIRST: &[u8] =
    b"protocol first array P { a b c } init { P: a*; } rule go { P: at a -> b; } bad { P: any* c any*; }";

/// A token that goes around a line: it is never lost, and there are never two.
pub(crate) const TOKEN: &[u8] =
    b"protocol token array P { n t } init { P: t n*; } rule pass { P: pair t n -> n t; }
bad { P: n*; } bad { P: any* t any* t any*; }";

/// The same as two properties.
const PROPERTIES: &[u8] = b"bad none { P: n*; } bad pairs { P: any* t any* t any*; }";

/// A proof of the first protocol.
const PROOF: &[u8] = b"armc 1 safe\nstates 1\nfinal 0\nedge 0 P.a 0\nedge 0 P.b 0\nend\n";

/// The words, the text of `f`, the call of the library and the calls of the sinks that fail; and what comes. The text of `c` is `PROOF`,
/// and that of `p` `PROPERTIES`.
pub(crate) struct Call {
    /// What it shows.
    pub title: &'static str,
    /// The words after the program's name.
    pub words: &'static [&'static str],
    /// The text of `f`, a protocol.
    pub protocol: &'static [u8],
    /// The number of the read that fails, if one does.
    pub failing: Option<u64>,
    /// How many bytes standard output takes of its first call, where this fails.
    pub out_takes: Option<u64>,
    /// How many bytes standard error takes of its first call, where this fails.
    pub err_takes: Option<u64>,
    /// The exit status.
    pub status: Status,
    /// What standard output takes.
    pub out: &'static [u8],
    /// What standard error takes.
    pub err: &'static [u8],
}

/// The words as texts of their own.
fn owned(alloc: Global, words: &[&str]) -> Result<Vec<String>, AllocError> {
    let mut texts = Vec::new(alloc);
    'words: for word in words {
        texts.push(String::from_str(alloc, word)?)?;
    }
    Ok(texts)
}

/// The library of the call.
fn library(alloc: Global, call: &Call) -> Result<MemoryLibrary, AllocError> {
    let named = [("f", call.protocol), ("c", PROOF), ("p", PROPERTIES)];
    let texts = texts(alloc, &named)?;
    let mut failing = Vec::new(alloc);
    if let Some(read) = call.failing {
        failing.push(read)?;
    }
    Ok(MemoryLibrary::new(alloc, texts, failing))
}

/// A sink whose first call fails, where it is told how many bytes this takes.
fn sink(alloc: Global, first: Option<u64>) -> Result<MemorySink, AllocError> {
    let mut failing = Vec::new(alloc);
    if let Some(bytes) = first {
        failing.push((0, bytes))?;
    }
    MemorySink::new(alloc, 1_000, failing)
}

/// The status of the call. It promises nothing, so that no call of it is searched through what `run` promises.
fn status<R: Threads + Sync>(
    alloc: Global,
    rt: &R,
    words: &[String],
    library: &mut MemoryLibrary,
    out: &mut MemorySink,
    err: &mut MemorySink,
    gate: &Meeting,
) -> Status {
    run(alloc, rt, words, library, out, err, gate)
}

/// Whether the words over this library have the status of the call, and both sinks take its bytes.
fn delivers<R: Threads + Sync>(
    alloc: Global,
    rt: &R,
    words: &[String],
    library: &mut MemoryLibrary,
    call: &Call,
    gate: &Meeting,
) -> Result<bool, AllocError> {
    let mut out = sink(alloc, call.out_takes)?;
    let mut err = sink(alloc, call.err_takes)?;
    let status = status(alloc, rt, words, library, &mut out, &mut err, gate);
    Ok(status == call.status && out.bytes() == call.out && err.bytes() == call.err)
}

/// Whether the call comes to what is told.
fn is_answered<R: Threads + Sync>(
    alloc: Global,
    rt: &R,
    call: &Call,
    gate: &Meeting,
) -> Result<bool, AllocError> {
    let words = owned(alloc, call.words)?;
    let mut library = library(alloc, call)?;
    delivers(alloc, rt, &words, &mut library, call, gate)
}

/// Fails with the title of the first call that comes to something else, or in which fewer than so many are ever in work at once.
pub(crate) fn are_answered<R: Threads + Sync>(
    alloc: Global,
    rt: &R,
    calls: &[Call],
    awaited: u64,
) -> Result<(), Fail> {
    'calls: for call in calls {
        let gate = Meeting::of(awaited);
        if !is_answered(alloc, rt, call, &gate)? || !gate.has_met() {
            return Err(call.title.into());
        }
    }
    Ok(())
}
