//! A gate at which those that enter meet: it counts them, and holds each until so many have come.
//! One that is held looks again at most 10,000,000 times, and costs what these looks cost.

use armc_io::Gate;
use std::sync::atomic::{AtomicBool, AtomicU64, Ordering};
use std::thread;

/// So many times one that is held looks whether the others have come.
const TURNS: u32 = 10_000_000;

/// A gate that holds each that enters until so many have come, and tells whether one gave up waiting.
#[derive(Drop)]
pub(crate) struct Meeting {
    awaited: u64,
    entered: AtomicU64,
    entered_for_first: AtomicU64,
    given_up: AtomicBool,
}

impl Meeting {
    /// The gate that so many have to enter before one passes.
    pub(crate) fn of(awaited: u64) -> Meeting {
        Meeting {
            awaited,
            entered: AtomicU64::new(0),
            entered_for_first: AtomicU64::new(0),
            given_up: AtomicBool::new(false),
        }
    }

    /// Whether nobody gave up waiting.
    pub(crate) fn has_met(&self) -> bool {
        !self.given_up.load(Ordering::SeqCst)
    }

    /// Whether two entered, one of them for the first rule.
    pub(crate) fn has_seen_both(&self) -> bool {
        self.entered.load(Ordering::SeqCst) == 2
            && self.entered_for_first.load(Ordering::SeqCst) == 1
    }
}

impl Gate for Meeting {
    fn enter(&self, rule: u32) {
        if rule == 0 {
            self.entered_for_first.fetch_add(1, Ordering::SeqCst);
        }
        self.entered.fetch_add(1, Ordering::SeqCst);
        'turns: for _turn in 0..TURNS {
            if self.entered.load(Ordering::SeqCst) >= self.awaited {
                return;
            }
            thread::yield_now();
        }
        self.given_up.store(true, Ordering::SeqCst);
    }
}
