//! The laws of replies, from those of the texts, of the judgement and of the search.
//! Their functions do nothing. The top call makes those of which it has clauses.

ghost use Rattle.std.specs.Prelude.{ℕ, List};
ghost use Rattle.armc_commands.specs.Origin.{Told};
ghost use Rattle.armc_commands.specs.OneReply.{HasOneReply};
ghost use Rattle.armc_commands.specs.ReplyLaws.{WorkersKeepReply, LargerBudgetKeepsReply, LargerBudgetKeepsParts};
ghost use Rattle.armc_commands.specs.ReplyLaws.{BadRunRulesOutSafe, GenerateIsNeverRefused, RepliesKeepPromises};

use crate::commands::{keep_promises, keeps_query_promise};
use certificate::one_reading as one_certificate;
use certificate_checker::one_answer as one_judgement;
use configuration_words::one_reading as one_configuration;
use protocol_model::texts_say_allowed_protocols;
use protocol_search::{larger_budget_keeps_verdict, one_verdict};
use protocol_steps::one_answer as one_list;
use protocol_syntax::{one_reading as one_protocol, one_reading_of_properties};

/// The law of workers: what words decide whose commands differ in the number of workers alone is the same, beside running out of memory.
/// The function does nothing.
pub fn workers_keep_reply()
    ensures { (words : List (List ℕ)) (told : Told) → WorkersKeepReply words told }
{
    one_protocol();
    texts_say_allowed_protocols();
    one_configuration();
    one_list();
    one_certificate();
    one_judgement();
    one_reading_of_properties();
    one_verdict();
}

/// The law of replies: where every text that the words read is told, the words and the told texts decide one reply, or one text that is
/// too long, beside running out of memory. The function does nothing.
pub fn one_reply()
    ensures { (words : List (List ℕ)) (told : Told) → HasOneReply words told }
{
    workers_keep_reply();
}

/// The law of budgets: an answer to a search of a file that decides has the same status and the same certificate for every larger budget,
/// and so has each part of an answer to `checkall`. The function does nothing.
pub fn larger_budget_keeps_reply()
    ensures query { (words : List (List ℕ)) (told : Told) → LargerBudgetKeepsReply words told }
    ensures parts { (words : List (List ℕ)) (told : Told) → LargerBudgetKeepsParts words told }
{
    one_protocol();
    one_reading_of_properties();
    larger_budget_keeps_verdict();
}

/// The law of bad runs: where the protocol has one, no search of a file answers that it is safe, and where it has a run into a deadlock, no
/// search for one answers that it is free of them. The function does nothing.
pub fn bad_run_rules_out_safe()
    ensures { BadRunRulesOutSafe }
{
    keeps_query_promise();
}

/// The law of promises: the reply that the words of a command and the told texts decide tells the first fault of the protocol, or keeps
/// what the command promises. A search promises that its verdict comes from a history: by predicates no two of its rounds refute one
/// language, its merged automata grow within a round and are at most as many as the key bounds, and a bad run bounds the indices of its
/// rounds. The function does nothing.
pub fn replies_keep_promises()
    ensures { RepliesKeepPromises }
{
    keep_promises();
}

/// The law of `gen`: the text of the chain of each number says a protocol without a fault, so no reply to `gen` refuses its protocol. The
/// function does nothing.
pub fn generate_is_never_refused()
    ensures { GenerateIsNeverRefused }
{
    one_protocol();
}
