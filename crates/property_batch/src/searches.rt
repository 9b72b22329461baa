//! The searches for a list of properties, in threads. The list is cut into halves, and the workers with it, until a share is one worker
//! or one property; then its searches are made one after another. A search makes its problem and its predicates in its own thread.

ghost use Rattle.std.specs.Prelude.{◌≡◌, ◌<◌, ◌≤◌, ◌++◌, IfOk, IsOkAnd};
ghost use Rattle.property_batch.specs.PropertyVerdicts.{AreVerdicts, IsPropertyVerdict};

use armc_io::Gate;
use protocol_properties::Property;
use protocol_search::{Analysis, FirstAbstraction, Search, search_system};
use refinement::Verdict;
use std::alloc::{AllocError, Global};
use std::thread::{Threads, join};

/// The verdicts of the searches for the properties, in their order: each by the predicates of the property's own bad words, with the whole
/// budget, from 1 to 1,000,000 counted states. Up to so many searches are in work at once, each in one thread. The only error is to be out
/// of memory.
pub fn search_all<G: Gate, R: Threads + Sync>(
    alloc: Global,
    runtime: &R,
    properties: &[Property],
    budget: u64,
    workers: u32,
    gate: &G,
) -> Result<Vec<Verdict>, AllocError>
    requires some { 0 < budget }
    requires most { budget ≤ 1000000 }
    ensures { IfOk result (λ verdicts. AreVerdicts budget properties.now verdicts.items) }
{
    if workers < 2 || properties.len() < 2 {
        return search_in_turn(alloc, runtime, properties, budget, gate);
    }
    let (first, second) = properties.split_at(properties.len().div_ceil(2));
    let larger_share = workers.div_ceil(2);
    let smaller_share = workers - larger_share;
    let (first_verdicts, second_verdicts) = join(
        runtime,
        || -> Result<Vec<Verdict>, AllocError>
            requires { (0 < budget) × (budget ≤ 1000000) }
            ensures { IfOk result (λ verdicts. AreVerdicts budget first.entry.now verdicts.items) }
        { search_all(alloc, runtime, first, budget, larger_share, gate) },
        || -> Result<Vec<Verdict>, AllocError>
            requires { (0 < budget) × (budget ≤ 1000000) }
            ensures { IfOk result (λ verdicts. AreVerdicts budget second.entry.now verdicts.items) }
        { search_all(alloc, runtime, second, budget, smaller_share, gate) },
    );
    concatenate(first_verdicts, second_verdicts)
}

/// The verdicts on the first properties of a list and those on the others, one after another, or the first of their errors.
fn concatenate(
    first_verdicts: Result<Vec<Verdict>, AllocError>,
    second_verdicts: Result<Vec<Verdict>, AllocError>,
) -> Result<Vec<Verdict>, AllocError>
    ensures { IfOk result (λ all. IsOkAnd first_verdicts (λ first. IsOkAnd second_verdicts (λ second.
        all.items ≡ first.items ++ second.items))) }
{
    let mut all = first_verdicts?;
    let mut rest = second_verdicts?;
    all.append(&mut rest)?;
    Ok(all)
}

/// The verdicts of the searches for the properties, made by the calling thread, one after another.
fn search_in_turn<G: Gate, R: Threads + Sync>(
    alloc: Global,
    runtime: &R,
    properties: &[Property],
    budget: u64,
    gate: &G,
) -> Result<Vec<Verdict>, AllocError>
    requires some { 0 < budget }
    requires most { budget ≤ 1000000 }
    ensures { IfOk result (λ verdicts. AreVerdicts budget properties.now verdicts.items) }
{
    let mut verdicts = Vec::with_capacity(alloc, properties.len())?;
    'properties: for property in properties {
        let verdict = search_one(alloc, runtime, property, budget, gate)?;
        verdicts.push(verdict)?;
    }
    Ok(verdicts)
}

/// The verdict of the search for the property, made by the calling thread.
fn search_one<G: Gate, R: Threads + Sync>(
    alloc: Global,
    runtime: &R,
    property: &Property,
    budget: u64,
    gate: &G,
) -> Result<Verdict, AllocError>
    requires some { 0 < budget }
    requires most { budget ≤ 1000000 }
    ensures { IfOk result (IsPropertyVerdict budget property.now) }
{
    let search = Search {
        analysis: Analysis::Forward,
        first: FirstAbstraction::TargetPredicates,
        budget,
    };
    search_system(alloc, runtime, gate, &property.system, search, 1)
}
