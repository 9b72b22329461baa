//! Writes the report of a search: its value, one object of JSON, and the compact text of that value.
//! It takes time linear in the log.

ghost use Rattle.std.specs.Prelude.{◌≡◌, ◌-◌, IfOk, length, slice_get};
ghost use Rattle.serde_json.specs.View.{view};
ghost use Rattle.search_report.specs.Report.{method_name, end_name, end_verdict, verdict_of, sizes_array, round_object, rounds_array, report_object, report_text};

use command_words::Method;
use search_history::{Log, LogEnd, RoundLog};
use serde_json::{Value, json};
use std::alloc::{AllocError, Global};

/// The report of a search by this method with this log: the compact text of a JSON object, and a line feed.
///
/// Errors: `AllocError` where memory runs out.
pub fn report(alloc: Global, method: Method, log: &Log) -> Result<Vec<u8>, AllocError>
    ensures { IfOk result (λ text. text.items ≡ report_text method log.now) }
{
    let report = report_value(alloc, method, log)?;
    let mut text = report.to_string(alloc)?.into_bytes();
    text.push(b'\n')?;
    Ok(text)
}

/// The value of the report.
fn report_value(alloc: Global, method: Method, log: &Log) -> Result<Value, AllocError>
    ensures { IfOk result (λ value. view value ≡ report_object method log.now) }
{
    let rounds = rounds_value(alloc, log.rounds.as_slice())?;
    json!(in alloc; {
        "budget": log.budget,
        "counted": log.counted,
        "method": name_of_method(method),
        "rounds": rounds,
        "verdict": verdict(log.rounds.as_slice())
    })
}

/// The array of the rounds.
fn rounds_value(alloc: Global, rounds: &[RoundLog]) -> Result<Value, AllocError>
    ensures { IfOk result (λ value. view value ≡ rounds_array rounds.now) }
{
    let mut values = Vec::new(alloc);
    'rounds: for round in rounds {
        values.push(round_value(alloc, round)?)?;
    }
    Ok(Value::Array(values))
}

/// The object of a round.
fn round_value(alloc: Global, round: &RoundLog) -> Result<Value, AllocError>
    ensures { IfOk result (λ value. view value ≡ round_object round.now) }
{
    let merged = sizes_value(alloc, round.m.as_slice())?;
    let before = sizes_value(alloc, round.n.as_slice())?;
    let replayed = sizes_value(alloc, round.x.as_slice())?;
    json!(in alloc; {
        "end": name_of_end(round.end),
        "level": round.level,
        "m": merged,
        "n": before,
        "x": replayed
    })
}

/// The array of some sizes.
fn sizes_value(alloc: Global, sizes: &[u64]) -> Result<Value, AllocError>
    ensures { IfOk result (λ value. view value ≡ sizes_array sizes.now) }
{
    let mut values = Vec::new(alloc);
    'sizes: for size in sizes {
        values.push(Value::from(*size))?;
    }
    Ok(Value::Array(values))
}

/// The name of the method.
fn name_of_method(method: Method) -> &'static str
    ensures { result.now ≡ method_name method }
{
    match method {
        Method::Predicates => "predicates",
        Method::Length => "length",
    }
}

/// The name of the end of a round.
fn name_of_end(end: LogEnd) -> &'static str
    ensures { result.now ≡ end_name end }
{
    match end {
        LogEnd::Closed => "closed",
        LogEnd::Refuted => "refuted",
        LogEnd::Real => "real",
        LogEnd::Spent => "spent",
    }
}

/// The verdict of a search with these rounds.
fn verdict(rounds: &[RoundLog]) -> &'static str
    ensures { result.now ≡ verdict_of (slice_get rounds.now (length rounds.now - 1)) }
{
    if let Some(round) = rounds.last() {
        return verdict_of_end(round.end);
    }
    "unknown"
}

/// The verdict of a search whose last round ends so.
fn verdict_of_end(end: LogEnd) -> &'static str
    ensures { result.now ≡ end_verdict end }
{
    match end {
        LogEnd::Closed => "safe",
        LogEnd::Real => "unsafe",
        LogEnd::Refuted => "unknown",
        LogEnd::Spent => "unknown",
    }
}
