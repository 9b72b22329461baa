//! The rules of small protocols as transducers: which of them relate two words, and the union of two and its inverse.
//! The protocol of each row is parsed from its text and compiled once.

use crate::read_system;
use protocol_model::System;
use std::alloc::{AllocError, Global};
use std::test::Fail;
use step_compiler::compile;
use transducers::{Transducer, either, inverse, relates};

/// The system of the text. It stands in a box, which each end of a function lets go by one call.
pub(crate) fn system(alloc: Global, text: &[u8]) -> Result<Box<System>, Fail> {
    let Some(system) = read_system(alloc, text)? else {
        return Err("a fault".into());
    };
    Ok(Box::new(alloc, system)?)
}

/// The transducers of the rules of the text.
pub(crate) fn rules(alloc: Global, text: &[u8]) -> Result<Vec<Transducer>, Fail> {
    let system = system(alloc, text)?;
    Ok(compile(alloc, &system)?)
}

/// The numbers of the rules that lead from one word to the other.
fn leading(
    alloc: Global,
    rules: &[Transducer],
    before: &[u32],
    after: &[u32],
) -> Result<Vec<usize>, AllocError> {
    let mut numbers = Vec::new(alloc);
    'rules: for (number, rule) in rules.iter().enumerate() {
        if relates(alloc, rule, before, after)? {
            numbers.push(number)?;
        }
    }
    Ok(numbers)
}

const FEW_PROCESSES: &[u8] = b"protocol p array P { a b }
rule r1 { P: at a -> b when all others in { b }; } rule r2 { P: at a -> b when some others in { a b }; }
rule r3 { P: ring a a -> b b; } rule r4 { P: two a a -> b b; }";

const TWO_GUARDS: &[u8] =
    b"protocol p array P { x y z a b } rule r { P: at a -> b when some left in { x y } when some left in { x z }; }";

const TABLES: &[u8] = b"protocol p array P { i s m }
rule r1 { P: at i -> m when some others in { m } map { s -> i; m -> i; }; } rule r2 { P: at i -> m map { }; }";

const EXCHANGES: &[u8] = b"protocol p array P { a b }
rule p { P: pair a b -> b a; } rule q { P: ring b a -> a b; } rule t { P: two b a -> a b; }";

pub(crate) const HANDOFF: &[u8] =
    b"protocol handoff cell S { a b } channel C { m } init { S: a; C: empty; }
rule put { S: set a -> b; C: send m; } rule take { S: set b -> a; C: recv m; } bad { C: m m any*; }";

/// A protocol, two words, and the numbers of the rules that lead from the one to the other.
type Step = (
    &'static [u8],
    &'static [u32],
    &'static [u32],
    &'static [usize],
);

const STEPS: [Step; 12] = [
    // alone, where all others hold a letter and none does; and nobody
    (FEW_PROCESSES, &[0], &[1], &[0]),
    (FEW_PROCESSES, &[], &[], &[]),
    // two guards by one letter and by two, and one guard alone
    (TWO_GUARDS, &[0, 3], &[0, 4], &[0]),
    (TWO_GUARDS, &[1, 2, 3], &[1, 2, 4], &[0]),
    (TWO_GUARDS, &[1, 3], &[1, 4], &[]),
    // the guard reads the letters from before the table; a table without an entry changes nothing
    (TABLES, &[2, 0, 1], &[0, 2, 0], &[0]),
    (TABLES, &[2, 0, 1], &[2, 2, 1], &[1]),
    (TABLES, &[1, 0], &[0, 2], &[]),
    // neighbours, both ends, and any two positions in either order
    (EXCHANGES, &[0, 1], &[1, 0], &[0, 1, 2]),
    (EXCHANGES, &[1, 0], &[0, 1], &[2]),
    // a cell and a channel change together, and back
    (HANDOFF, &[0, 3, 2], &[1, 3, 2, 2], &[0]),
    (HANDOFF, &[1, 3, 2, 2], &[0, 3, 2], &[1]),
];

/// Whether the rules of the protocol that lead from the one word to the other are those that are told.
fn is_led(
    alloc: Global,
    protocol: &[u8],
    before: &[u32],
    after: &[u32],
    told: &[usize],
) -> Result<bool, Fail> {
    let rules = rules(alloc, protocol)?;
    let numbers = leading(alloc, &rules, before, after)?;
    Ok(numbers.as_slice() == told)
}

/// How many of the steps are by the rules that are told, before one that is not.
fn steps_as_told(alloc: Global, steps: &[Step]) -> Result<usize, Fail> {
    'steps: for (number, (protocol, before, after, told)) in steps.iter().enumerate() {
        if !is_led(alloc, protocol, before, after, told)? {
            return Ok(number);
        }
    }
    Ok(steps.len())
}

#[test]
fn rules_lead_as_told(rt: HostRuntime) -> Result<(), Fail> {
    assert!(rt; steps_as_told(rt.alloc(), &STEPS)? == 12);
    Ok(())
}

/// Whether the union of the two relates the words, and its inverse too.
fn goes_both_ways(
    alloc: Global,
    put: &Transducer,
    take: &Transducer,
    before: &[u32],
    after: &[u32],
) -> Result<bool, Fail> {
    if put.letters() != take.letters() {
        return Err("other letters".into());
    }
    let both = Box::new(alloc, either(alloc, put, take)?)?;
    let turned = Box::new(alloc, inverse(alloc, &both)?)?;
    Ok(relates(alloc, &both, before, after)? && relates(alloc, &turned, before, after)?)
}

/// Whether there are two rules, and each undoes the other.
fn undo_each_other(alloc: Global, rules: &[Transducer]) -> Result<bool, Fail> {
    match rules {
        [put, take] => goes_both_ways(alloc, put, take, &[0, 3], &[1, 3, 2]),
        _ => Ok(false),
    }
}

#[test]
fn two_rules_are_united_and_turned(rt: HostRuntime) -> Result<(), Fail> {
    let rules = rules(rt.alloc(), HANDOFF)?;
    assert!(rt; undo_each_other(rt.alloc(), &rules)?);
    Ok(())
}
