//! Whole searches in threads: images of two rules, preimages of two rules and searches of two properties are in work at once. One thread
//! makes one image after another, each with one entry of the gate for each rule, so the second to enter a gate that holds the first is of
//! another thread.

use crate::calls::{Call, TOKEN, are_answered};
use crate::moves::HANDOFF;
use armc_commands::Status;
use std::test::Fail;

const HANDOFF_PROOF: &[u8] =
    b"armc 1 safe\nstates 4\nfinal 2\nedge 0 S.a 0\nedge 0 S.b 1\nedge 0 | 2\nedge 1 | 3\nedge 3 C.m 2\nend\n";

const HANDOFF_IS_FREE: &[u8] =
    b"deadlock free\nstates 3\nfinal 2\nedge 0 S.a 1\nedge 0 S.b 0\nedge 0 C.m 2\nedge 0 | 0\nedge 1 | 2\nend\n";

const TOKEN_PROOFS: &[u8] =
    b"property none\narmc 1 safe\nstates 2\nfinal 1\nedge 0 P.n 0\nedge 0 P.t 1\nedge 1 P.n 1\nend
property pairs\narmc 1 safe\nstates 2\nfinal 1\nedge 0 P.n 0\nedge 0 P.t 1\nedge 1 P.n 1\nend\n";

/// Whole searches by two workers. The first that `deadlock` asks for are the preimages without which the stuck words are left; the one rule
/// of the token is asked in two searches.
const SEARCHES: [Call; 3] = [
    Call {
        title: "images of two rules",
        words: &["check", "f", "--workers", "2"],
        protocol: HANDOFF,
        failing: None,
        out_takes: None,
        err_takes: None,
        status: Status::Done,
        out: HANDOFF_PROOF,
        err: b"",
    },
    Call {
        title: "preimages of two rules",
        words: &["deadlock", "f", "--workers", "2"],
        protocol: HANDOFF,
        failing: None,
        out_takes: None,
        err_takes: None,
        status: Status::Done,
        out: HANDOFF_IS_FREE,
        err: b"",
    },
    Call {
        title: "searches of two properties",
        words: &["checkall", "f", "p", "--workers", "2"],
        protocol: TOKEN,
        failing: None,
        out_takes: None,
        err_takes: None,
        status: Status::Done,
        out: TOKEN_PROOFS,
        err: b"",
    },
];

#[test]
fn two_are_in_work_at_once(rt: HostRuntime) -> Result<(), Fail> {
    are_answered(rt.alloc(), &rt, &SEARCHES, 2)
}
