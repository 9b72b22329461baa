//! The program: it answers the words after its name by one text on standard output and one on standard error. Words of which one is no
//! text (UTF-8) mean no command, and are answered as no words are. Words that do not fit into memory are answered as any lack of it is.
#![tactic(auto)]

use armc_commands::{Status, run};
use armc_io::{FileLibrary, NoGate, Sink, StreamSink};
use std::env;
use std::io::{Error, ErrorKind};
use std::process::ExitCode;

/// Says that memory ran out, as the commands do.
fn out_of_memory<E: Sink>(err: &mut E) -> ExitCode {
    match err.put(b"armc: out of memory\n") {
        Ok(()) => ExitCode::from(Status::Memory as u8),
        Err(_) => ExitCode::from(Status::WriteFault as u8),
    }
}

/// Whether this error of reading words says that one of them is no text.
fn is_no_text(error: &Error) -> bool {
    error.kind() == ErrorKind::InvalidData
}

fn main(rt: HostRuntime) -> ExitCode {
    let mut out = StreamSink::new(rt.stdout());
    let mut err = StreamSink::new(rt.stderr());
    let mut words = Vec::new(rt.alloc());
    match env::args(&rt) {
        Ok(arguments) => {
            'words: for word in arguments.skip(1) {
                if words.push(word).is_err() {
                    return out_of_memory(&mut err);
                }
            }
        }
        Err(error) => {
            if !is_no_text(&error) {
                return out_of_memory(&mut err);
            }
        }
    }
    let Ok(runtime) = rt.clone() else {
        return out_of_memory(&mut err);
    };
    let mut library = FileLibrary::new(runtime);
    let status = run(
        rt.alloc(),
        &rt,
        words.as_slice(),
        &mut library,
        &mut out,
        &mut err,
        &NoGate,
    );
    ExitCode::from(status as u8)
}
