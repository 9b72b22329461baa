//! Calls of which a read or a write fails, one a row: the status, and what both sinks take. The faults that files and devices can have are
//! shown for each command by whole runs, in the folder `tests` at the top. A call costs what its command costs on a small protocol.

use crate::calls::{Call, FIRST, TOKEN, are_answered};
use armc_commands::Status;
use std::test::Fail;

const TOKEN_PROOF: &[u8] =
    b"armc 1 safe\nstates 2\nfinal 1\nedge 0 P.n 0\nedge 0 P.t 1\nedge 1 P.n 1\nend\n";

const ALONE: &[u8] =
    b"protocol p array P { a b } rule r1 { P: at a -> b when all others in { b }; }";

const CALLS: [Call; 12] = [
    Call {
        title: "verify, the protocol is not read",
        words: &["verify", "f", "c"],
        protocol: FIRST,
        failing: Some(0),
        out_takes: None,
        err_takes: None,
        status: Status::ReadFault,
        out: b"",
        err: b"armc: read fault: f\n",
    },
    Call {
        title: "verify, the certificate is not read",
        words: &["verify", "f", "c"],
        protocol: FIRST,
        failing: Some(1),
        out_takes: None,
        err_takes: None,
        status: Status::ReadFault,
        out: b"",
        err: b"armc: read fault: c\n",
    },
    Call {
        title: "verify, nothing is written",
        words: &["verify", "f", "c"],
        protocol: FIRST,
        failing: None,
        out_takes: Some(0),
        err_takes: None,
        status: Status::WriteFault,
        out: b"",
        err: b"",
    },
    Call {
        title: "verify, all is written, and the call fails",
        words: &["verify", "f", "c"],
        protocol: FIRST,
        failing: None,
        out_takes: Some(6),
        err_takes: None,
        status: Status::WriteFault,
        out: b"valid\n",
        err: b"",
    },
    Call {
        title: "verify, three bytes are written",
        words: &["verify", "f", "c"],
        protocol: FIRST,
        failing: None,
        out_takes: Some(3),
        err_takes: None,
        status: Status::WriteFault,
        out: b"val",
        err: b"",
    },
    Call {
        title: "verify, the protocol is not read, and the line is cut",
        words: &["verify", "f", "c"],
        protocol: FIRST,
        failing: Some(0),
        out_takes: None,
        err_takes: Some(5),
        status: Status::WriteFault,
        out: b"",
        err: b"armc:",
    },
    Call {
        title: "verify, nothing can be written where nothing is told",
        words: &["verify", "f", "c"],
        protocol: FIRST,
        failing: None,
        out_takes: None,
        err_takes: Some(0),
        status: Status::Done,
        out: b"valid\n",
        err: b"",
    },
    Call {
        title: "check, the report is cut",
        words: &["check", "f", "--report"],
        protocol: TOKEN,
        failing: None,
        out_takes: None,
        err_takes: Some(1),
        status: Status::WriteFault,
        out: TOKEN_PROOF,
        err: b"{",
    },
    Call {
        title: "check, the proof is cut, and no report follows",
        words: &["check", "f", "--report"],
        protocol: TOKEN,
        failing: None,
        out_takes: Some(7),
        err_takes: None,
        status: Status::WriteFault,
        out: b"armc 1 ",
        err: b"",
    },
    Call {
        title: "gen reads nothing",
        words: &["gen", "3"],
        protocol: FIRST,
        failing: Some(0),
        out_takes: None,
        err_takes: None,
        status: Status::Done,
        out: b"gen 3\nverdict safe\nrounds 1\ncounted 9\nstates 1\nedges 3\n",
        err: b"",
    },
    Call {
        title: "steps of which there is none, and nothing can be written",
        words: &["steps", "f", "P: empty"],
        protocol: ALONE,
        failing: None,
        out_takes: Some(0),
        err_takes: None,
        status: Status::Done,
        out: b"",
        err: b"",
    },
    Call {
        title: "words that are no command, and the line is cut",
        words: &["show"],
        protocol: FIRST,
        failing: Some(0),
        out_takes: None,
        err_takes: Some(5),
        status: Status::WriteFault,
        out: b"",
        err: b"armc:",
    },
];

#[test]
fn no_answer_changes_in_place_of_a_fault(rt: HostRuntime) -> Result<(), Fail> {
    are_answered(rt.alloc(), &rt, &CALLS, 0)
}
