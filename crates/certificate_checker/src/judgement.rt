//! The judgement of a certificate. For an automaton the parts of a proof by an inductive invariant are tested one after the other, each by
//! a walk over pairs of states, breadth first, that ends at the least word that speaks against the part. The automaton is made canonical
//! first. Each rule is compiled, judged and dropped before the next. A run is checked step by step, in one pass and without memory.

ghost use Rattle.std.specs.Prelude.{◌≡◌, ◌↔◌, ◌<◌, ℕ, List, All, IfOk, IsOk, MatchOption, length};
ghost use Rattle.sequence.specs.WordOrder.{IsLeastWord};
ghost use Rattle.word_automata.specs.Nondeterministic.{as_nondeterministic};
ghost use Rattle.boolean_operations.specs.Inclusion.{IsOutside};
ghost use Rattle.boolean_operations.specs.CommonWords.{IsCommonWord};
ghost use Rattle.transducers.specs.Transducer.{Relates};
ghost use Rattle.protocol_model.specs.Words.{automata_letters};
ghost use Rattle.step_compiler.specs.Rules.{IsRuleStep};
ghost use Rattle.section_patterns.specs.ConfigurationWords.{IsWordOf, IsConfigurationWord};
ghost use Rattle.certificate_checker.specs.Answers.{IsAnswer, IsAutomatonAnswer, IsAnswerToRun, HasLetters, IsLeastConfiguration};
ghost use Rattle.certificate_checker.specs.Answers.{IsMissing, IsHeld, IsExit, IsLeastExit, HasNone};
ghost use Rattle.certificate_checker.specs.private.Parts.{AreWordsOf, IsReached, IsSource, IsBefore, IsLeastExitBy};

use crate::answer::Answer;
use boolean_operations::{included, least_common_word, single_word};
use certificate::Certificate;
use configuration_words::decode;
use image_preimage::{image_automaton, preimage_automaton};
use minimise::canonical;
use protocol_model::{Configuration, Run, System};
use protocol_steps::{RunAnswer, check_run};
use section_patterns::{bad_words, initial_words};
use std::alloc::{AllocError, Global};
use step_compiler::compile_rule;
use transducers::Transducer;
use word_automata::Dfa;

/// A step from an accepted configuration to one that the automaton refuses.
#[derive(Drop)]
struct Exit {
    rule: u32,
    before: Configuration,
    after: Configuration,
}

/// Judges a certificate. An automaton is valid where it proves the system: it accepts every initial configuration and no bad one,
/// and with a configuration every one to which a step leads; these parts are tested in the order initial, bad, steps, and the first
/// that fails is answered with the least configurations that show it. A run is valid where it is a bad run of the system, and
/// no memory is taken for it.
///
/// Neither complement nor product is built: the words that are tested are those that initial and bad configurations and steps have.
pub fn check_certificate(
    alloc: Global,
    system: &System,
    certificate: &Certificate,
) -> Result<Answer, AllocError>
    requires { HasLetters system.now certificate.now }
    ensures answer { IfOk result (IsAnswer system.now certificate.now) }
    ensures run { (run : _) → certificate.now ≡ Certificate.BadRun run → IsOk result }
{
    match certificate {
        Certificate::Automaton(automaton) => judge_language(alloc, system, automaton),
        Certificate::BadRun(run) => Ok(judge_run(system, run)),
    }
}

/// Judges a run.
fn judge_run(system: &System, run: &Run) -> Answer
    ensures { IsAnswerToRun system.now run.now result }
{
    match check_run(system, run) {
        RunAnswer::BadRun => Answer::Valid,
        RunAnswer::NotInitial => Answer::NotInitial,
        RunAnswer::NotStep(step) => Answer::NotStep(step),
        RunAnswer::NotBad => Answer::NotBad,
    }
}

/// Judges an automaton by the canonical one of its language, so that states of a certificate that accept the same words cost one pass.
fn judge_language(alloc: Global, system: &System, automaton: &Dfa) -> Result<Answer, AllocError>
    requires { automaton.now.letters ≡ automata_letters system.now }
    ensures { IfOk result (IsAutomatonAnswer system.now automaton.now) }
{
    let canon = canonical(alloc, automaton)?;
    judge_automaton(alloc, system, canon.as_dfa())
}

/// Judges an automaton: the parts of a proof in their order.
fn judge_automaton(alloc: Global, system: &System, automaton: &Dfa) -> Result<Answer, AllocError>
    requires { automaton.now.letters ≡ automata_letters system.now }
    ensures { IfOk result (IsAutomatonAnswer system.now automaton.now) }
{
    if let Some(missing) = least_missing(alloc, system, automaton)? {
        return Ok(Answer::InitialMissing(missing));
    }
    if let Some(held) = least_held(alloc, system, automaton)? {
        return Ok(Answer::BadHeld(held));
    }
    match least_exit(alloc, system, automaton)? {
        Some(exit) => Ok(Answer::Leaves {
            rule: exit.rule,
            before: exit.before,
            after: exit.after,
        }),
        None => Ok(Answer::Valid),
    }
}

/// The configuration of the word, which is that of some configuration.
fn configuration_of(
    alloc: Global,
    system: &System,
    word: &[u32],
) -> Result<Configuration, AllocError>
    requires { IsConfigurationWord system.now word.now }
    ensures { IfOk result (IsWordOf system.now word.now) }
{
    match decode(alloc, system, word)? {
        Some(found) => Ok(found),
        None => unreachable!(),
    }
}

/// The least initial configuration that the automaton refuses.
fn least_missing(
    alloc: Global,
    system: &System,
    automaton: &Dfa,
) -> Result<Option<Configuration>, AllocError>
    requires { automaton.now.letters ≡ automata_letters system.now }
    ensures { IfOk result (λ found. MatchOption found (HasNone (IsMissing system.now automaton.now))
        (IsLeastConfiguration system.now (IsMissing system.now automaton.now))) }
{
    let initial = initial_words(alloc, system)?;
    least_refused(alloc, system, initial.as_dfa(), automaton)
}

/// The least initial configuration that the automaton refuses, where the other one accepts the words of the initial ones.
fn least_refused(
    alloc: Global,
    system: &System,
    initial: &Dfa,
    automaton: &Dfa,
) -> Result<Option<Configuration>, AllocError>
    requires letters { initial.now.letters ≡ automaton.now.letters }
    requires words { AreWordsOf system.now (IsOutside (as_nondeterministic initial.now) automaton.now)
        (IsMissing system.now automaton.now) }
    ensures { IfOk result (λ found. MatchOption found (HasNone (IsMissing system.now automaton.now))
        (IsLeastConfiguration system.now (IsMissing system.now automaton.now))) }
{
    let Some(word) = included(alloc, initial, automaton)? else {
        return Ok(None);
    };
    Ok(Some(configuration_of(alloc, system, word.as_slice())?))
}

/// The least bad configuration that the automaton accepts.
fn least_held(
    alloc: Global,
    system: &System,
    automaton: &Dfa,
) -> Result<Option<Configuration>, AllocError>
    requires { automaton.now.letters ≡ automata_letters system.now }
    ensures { IfOk result (λ found. MatchOption found (HasNone (IsHeld system.now automaton.now))
        (IsLeastConfiguration system.now (IsHeld system.now automaton.now))) }
{
    let bad = bad_words(alloc, system)?;
    least_accepted(alloc, system, bad.as_dfa(), automaton)
}

/// The least bad configuration that the automaton accepts, where the other one accepts the words of the bad ones.
fn least_accepted(
    alloc: Global,
    system: &System,
    bad: &Dfa,
    automaton: &Dfa,
) -> Result<Option<Configuration>, AllocError>
    requires letters { bad.now.letters ≡ automaton.now.letters }
    requires words { AreWordsOf system.now (IsCommonWord (as_nondeterministic bad.now) automaton.now) (IsHeld system.now automaton.now) }
    ensures { IfOk result (λ found. MatchOption found (HasNone (IsHeld system.now automaton.now))
        (IsLeastConfiguration system.now (IsHeld system.now automaton.now))) }
{
    let Some(word) = least_common_word(alloc, bad, automaton)? else {
        return Ok(None);
    };
    Ok(Some(configuration_of(alloc, system, word.as_slice())?))
}

/// The least rule that leads from an accepted configuration to a refused one, with the least such configurations. One rule is
/// compiled at a time, and none after the first that does.
fn least_exit(alloc: Global, system: &System, automaton: &Dfa) -> Result<Option<Exit>, AllocError>
    requires { automaton.now.letters ≡ automata_letters system.now }
    ensures { IfOk result (λ found. MatchOption found ((r : ℕ) → HasNone (IsExit system.now automaton.now r))
        (λ exit. IsLeastExit system.now automaton.now exit.rule exit.before exit.after)) }
{
    'rules: for rule in 0..rule_count(system) {
        let step = compile_rule(alloc, system, rule as usize)?;
        if let Some((before, after)) = exit_by(alloc, system, automaton, rule, &step)? {
            return Ok(Some(Exit {
                rule,
                before,
                after,
            }));
        }
    }
    Ok(None)
}

/// The number of rules.
fn rule_count(system: &System) -> u32
    ensures { result ≡ length system.now.rules }
{
    system.rules.as_slice().len() as u32
}

/// The least refused configuration to which the rule leads from an accepted one, after the least of these.
fn exit_by(
    alloc: Global,
    system: &System,
    automaton: &Dfa,
    rule: u32,
    step: &Transducer,
) -> Result<Option<(Configuration, Configuration)>, AllocError>
    requires automaton { automaton.now.letters ≡ automata_letters system.now }
    requires step { step.now.letters ≡ automata_letters system.now }
    requires compiled { (u w : List ℕ) → Relates step.now u w ↔ IsRuleStep system.now rule u w }
    ensures { IfOk result (λ found. MatchOption found (HasNone (IsExit system.now automaton.now rule))
        (λ exit. IsLeastExitBy system.now automaton.now rule exit.0 exit.1)) }
{
    let Some(target) = least_reached(alloc, automaton, step)? else {
        return Ok(None);
    };
    Ok(Some(exit_to(alloc, system, automaton, rule, step, target.as_slice())?))
}

/// The configuration of the word, the least refused one to which the rule leads from an accepted one, after the least of these.
fn exit_to(
    alloc: Global,
    system: &System,
    automaton: &Dfa,
    rule: u32,
    step: &Transducer,
    target: &[u32],
) -> Result<(Configuration, Configuration), AllocError>
    requires automaton { automaton.now.letters ≡ automata_letters system.now }
    requires step { step.now.letters ≡ automata_letters system.now }
    requires compiled { (u w : List ℕ) → Relates step.now u w ↔ IsRuleStep system.now rule u w }
    requires least { IsLeastWord (IsReached step.now automaton.now) target.now }
    ensures { IfOk result (λ exit. IsLeastExitBy system.now automaton.now rule exit.0 exit.1) }
{
    let _rule = rule;
    let Some(source) = least_before(alloc, automaton, step, target)? else {
        unreachable!();
    };
    both_configurations(alloc, system, source.as_slice(), target)
}

/// The configurations of two words, each of which is that of some configuration.
fn both_configurations(
    alloc: Global,
    system: &System,
    first: &[u32],
    second: &[u32],
) -> Result<(Configuration, Configuration), AllocError>
    requires first { IsConfigurationWord system.now first.now }
    requires second { IsConfigurationWord system.now second.now }
    ensures { IfOk result (λ both. IsWordOf system.now first.now both.0 × IsWordOf system.now second.now both.1) }
{
    let first = configuration_of(alloc, system, first)?;
    let second = configuration_of(alloc, system, second)?;
    Ok((first, second))
}

/// The least word that the automaton refuses and to which the transducer relates one that it accepts.
fn least_reached(
    alloc: Global,
    automaton: &Dfa,
    step: &Transducer,
) -> Result<Option<Vec<u32>>, AllocError>
    requires { step.now.letters ≡ automaton.now.letters }
    ensures { IfOk result (λ found. MatchOption found ((w : List ℕ) → IsReached step.now automaton.now w → ⊥)
        (λ w. IsLeastWord (IsReached step.now automaton.now) w.items)) }
{
    let reached = image_automaton(alloc, step, automaton)?;
    included(alloc, &reached, automaton)
}

/// The least word that the automaton accepts and the transducer relates to the given one.
fn least_before(
    alloc: Global,
    automaton: &Dfa,
    step: &Transducer,
    word: &[u32],
) -> Result<Option<Vec<u32>>, AllocError>
    requires letters { step.now.letters ≡ automaton.now.letters }
    requires in_range { All (λ a. a < automaton.now.letters) word.now }
    ensures { IfOk result (λ found. MatchOption found ((w : List ℕ) → IsBefore step.now automaton.now word.now w → ⊥)
        (λ w. IsLeastWord (IsBefore step.now automaton.now word.now) w.items)) }
{
    let last = single_word(alloc, automaton.letters(), word)?;
    least_source(alloc, automaton, step, &last)
}

/// The least word that the automaton accepts and the transducer relates to one that the other accepts.
fn least_source(
    alloc: Global,
    automaton: &Dfa,
    step: &Transducer,
    last: &Dfa,
) -> Result<Option<Vec<u32>>, AllocError>
    requires step { step.now.letters ≡ automaton.now.letters }
    requires last { last.now.letters ≡ automaton.now.letters }
    ensures { IfOk result (λ found. MatchOption found ((w : List ℕ) → IsSource step.now automaton.now last.now w → ⊥)
        (λ w. IsLeastWord (IsSource step.now automaton.now last.now) w.items)) }
{
    let sources = preimage_automaton(alloc, step, last)?;
    least_common_word(alloc, &sources, automaton)
}
