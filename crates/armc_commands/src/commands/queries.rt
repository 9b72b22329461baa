//! The commands that search a protocol for a proof or a run: each query says what is searched and how it is told. The reply is a
//! certificate, with the report where it is asked for, or the text of a search for deadlocks. It costs what the search costs, in so many
//! threads as the words say; the reply does not depend on their number.

ghost use Rattle.std.specs.Prelude.{◌≡◌, ℕ, IfOk};
ghost use Rattle.command_words.specs.Words.{IsLimits};
ghost use Rattle.command_words.specs.declared.Query.{Query as QueryData};
ghost use Rattle.protocol_model.specs.System.{SystemData};
ghost use Rattle.command_replies.specs.declared.reply.Reply.{Reply as ReplyData};
ghost use Rattle.armc_commands.specs.Commands.Searches.{first_abstraction as first_abstraction_of, search_for as search_for_query};
ghost use Rattle.armc_commands.specs.Commands.Queries.{check_telling, telling_of as telling_of_query};
ghost use Rattle.armc_commands.specs.Commands.Queries.{QueryReply, QueryPromise};

use crate::search_reply::{Telling, keep_search_promises, search_reply};
use armc_io::Gate;
use command_replies::Reply;
use command_words::{Limits, Method, Query, Settings, Start};
use protocol_model::System;
use protocol_search::{Analysis, FirstAbstraction, Search};
use std::alloc::{AllocError, Global};
use std::thread::Threads;

// What states are merged by in the first round of `check`.
fn first_abstraction(settings: Settings) -> FirstAbstraction
    ensures { result ≡ first_abstraction_of settings }
{
    match settings.method {
        Method::Predicates => match settings.start {
            Start::Bad => FirstAbstraction::TargetPredicates,
            Start::Nothing => FirstAbstraction::NoPredicates,
        },
        Method::Length => FirstAbstraction::Lengths {
            bound: settings.bound,
        },
    }
}

// What is searched within the budget.
fn search_for(query: Query, budget: u64) -> Search
    ensures search { result ≡ search_for_query query budget }
    ensures budget { result.budget ≡ budget }
{
    match query {
        Query::Check(settings) => Search {
            analysis: Analysis::Forward,
            first: first_abstraction(settings),
            budget,
        },
        Query::Back => Search {
            analysis: Analysis::Backward,
            first: FirstAbstraction::TargetPredicates,
            budget,
        },
        Query::Deadlock => Search {
            analysis: Analysis::Stuck,
            first: FirstAbstraction::TargetPredicates,
            budget,
        },
        Query::Past { bound } => Search {
            analysis: Analysis::Forward,
            first: FirstAbstraction::Pasts { bound },
            budget,
        },
    }
}

// How `check` is told: with the report where it is asked for.
fn telling_by(settings: Settings) -> Telling
    ensures { result ≡ check_telling settings }
{
    if settings.report {
        Telling::Certificate(Some(settings.method))
    } else {
        Telling::Certificate(None)
    }
}

// How the verdict is told.
fn telling_of(query: Query) -> Telling
    ensures { result ≡ telling_of_query query }
{
    match query {
        Query::Check(settings) => telling_by(settings),
        Query::Back => Telling::Certificate(None),
        Query::Deadlock => Telling::Certificate(None),
        Query::Past { .. } => Telling::Certificate(None),
    }
}

/// The reply to a query of the system within these limits. The only error is that memory ran out.
pub fn query_reply<G: Gate, R: Threads + Sync>(
    alloc: Global,
    runtime: &R,
    gate: &G,
    system: &System,
    query: Query,
    limits: Limits,
) -> Result<Reply, AllocError>
    requires { IsLimits limits }
    ensures { IfOk result (QueryReply query limits.budget system.now) }
{
    let search = search_for(query, limits.budget);
    let telling = telling_of(query);
    search_reply(
        alloc,
        runtime,
        gate,
        system,
        search,
        telling,
        limits.workers,
    )
}

/// What the queries promise: the reply comes from its history; at status 0 the text shows what proves that there is no such run, of `back`
/// the complement of what was found; and at status 1 it shows a run. The function does nothing.
pub fn keeps_query_promise()
    ensures { (query : QueryData) (budget : ℕ) (s : SystemData) (reply : ReplyData)
        → QueryReply query budget s reply → QueryPromise query budget s reply }
{
    keep_search_promises();
}
