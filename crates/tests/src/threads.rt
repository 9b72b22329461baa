//! Images and preimages in threads: those of two rules are in work at once, and each rule is asked once. One thread makes one image after
//! another, so the second to enter a gate that holds the first is of another thread.

ghost use Rattle.std.specs.Prelude.{◌≤◌};

use crate::gates::Meeting;
use crate::moves::{HANDOFF, system};
use armc_commands::Status;
use armc_io::Gate;
use protocol_problem::{BadConfigurations, Compiled};
use safety_problem::Problem;
use std::alloc::Global;
use std::test::Fail;
use std::thread::Threads;

/// How many states the image of the initial words has, or else the preimage of the bad ones.
fn size_of<P: Problem>(problem: &P, backward: bool) -> Result<usize, Fail> {
    let reached = if backward {
        problem.pre(problem.bad())?
    } else {
        problem.post(problem.initial())?
    };
    Ok(reached.size())
}

/// The same of the protocol with a cell and a channel, by so many workers.
fn size<R: Threads + Sync>(
    alloc: Global,
    rt: &R,
    gate: &Meeting,
    workers: u32,
    backward: bool,
) -> Result<usize, Fail>
    requires { (1 ≤ workers) × (workers ≤ 16) }
{
    let system = system(alloc, HANDOFF)?;
    let kind = BadConfigurations::Declared;
    let problem = Compiled::new(alloc, rt, gate, &system, kind, workers)?;
    size_of(&problem, backward)
}

/// Whether so many workers ask each of the two rules once for its image, or else for its preimage, of which so many have to be in work at
/// once, and what is reached has so many states.
fn meet<R: Threads + Sync>(
    alloc: Global,
    rt: &R,
    workers: u32,
    awaited: u64,
    backward: bool,
    states: usize,
) -> Result<bool, Fail>
    requires { (1 ≤ workers) × (workers ≤ 16) }
{
    let gate = Meeting::of(awaited);
    let size = size(alloc, rt, &gate, workers, backward)?;
    Ok(size == states && gate.has_seen_both() && gate.has_met())
}

#[test]
fn images_of_two_rules_are_in_work_at_once(rt: HostRuntime) -> Result<(), Fail> {
    assert!(rt; meet(rt.alloc(), &rt, 1, 1, false, 4)?);
    assert!(rt; meet(rt.alloc(), &rt, 2, 2, false, 4)?);
    assert!(rt; meet(rt.alloc(), &rt, 16, 2, false, 4)?);
    Ok(())
}

#[test]
fn preimages_of_two_rules_are_in_work_at_once(rt: HostRuntime) -> Result<(), Fail> {
    assert!(rt; meet(rt.alloc(), &rt, 1, 1, true, 7)?);
    assert!(rt; meet(rt.alloc(), &rt, 2, 2, true, 7)?);
    assert!(rt; meet(rt.alloc(), &rt, 16, 2, true, 7)?);
    Ok(())
}
