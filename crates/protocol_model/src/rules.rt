//! Rules by number.
//! Each move is checked against the kind of its section, and each letter is looked up once; what a rule or a table names before is searched
//! through, so a rule costs the square of its names at most.

ghost use Rattle.std.specs.Prelude.{◌≡◌, ◌<◌, ◌≤◌, [], ◌∷◌, ◌++◌, IfOk, length, map};
ghost use Rattle.std.specs.List.{list_any};
ghost use Rattle.std.specs.Option.{option_or};
ghost use Rattle.std.specs.Str.{bytes_eq};
ghost use Rattle.protocol_syntax.specs.declared.limits.TheConstants.{MAX_RULES};
ghost use Rattle.protocol_syntax.specs.MoveLetters.{belongs_to};
ghost use Rattle.protocol_model.specs.Numbering.{step_of, rule_of};
ghost use Rattle.protocol_model.specs.Faults.{duplicate, step_fault, rule_fault, first_fault_of};
ghost use Rattle.protocol_model.specs.Outcome.{IsOutcome, IsFault};
ghost use Rattle.protocol_model.specs.declared.fault.ModelFault.TheVariants as fault;
ghost use Rattle.protocol_model.specs.declared.names.TheConstants.{MAX_NAMES};

use crate::fault::ModelFault;
use crate::names::Names;
use crate::renaming::rename_move;
use crate::sections::{Sections, add_name, copy_name, copy_text, unknown_name};
use crate::system::{Move, Rule};
use crate::traversal::{Resolver, resolve_each};
use protocol_syntax::{Kind, MoveBody, MoveText, Name, RuleText};
use sequence::Sequence;
use std::alloc::Global;

/// Whether the move belongs to sections of this kind.
fn is_of_kind(body: &MoveBody, kind: Kind) -> bool
    ensures { result ≡ belongs_to body.now kind }
{
    match body {
        MoveBody::At { .. }
        | MoveBody::Pair { .. }
        | MoveBody::Ring { .. }
        | MoveBody::Two { .. }
        | MoveBody::Spawn { .. }
        | MoveBody::Exit { .. } => kind == Kind::Array,
        MoveBody::Set { .. } => kind == Kind::Cell,
        MoveBody::Send { .. } | MoveBody::Recv { .. } => {
            kind == Kind::Channel || kind == Kind::LossyChannel
        }
        MoveBody::Stack { .. } => kind == Kind::Stack,
        MoveBody::Lose { .. } => kind == Kind::LossyChannel,
    }
}

/// Whether one of the steps names this section.
fn is_touched(steps: &[MoveText], name: &Name) -> bool
    ensures { result ≡ list_any (λ step. bytes_eq name.now.text step.section.text) steps.now }
{
    steps
        .iter()
        .any(|step| name.text.as_str() == step.section.text.as_str())
}

/// The fault of a section that an earlier step of the rule names.
fn touched_twice_name(alloc: Global, name: &Name) -> ModelFault
    ensures { IsFault (fault.TouchedTwice name.now) result }
{
    match copy_name(alloc, name) {
        Ok(name) => ModelFault::TouchedTwice { name },
        Err(_) => ModelFault::Memory,
    }
}

/// The fault of a section to whose kind the move does not belong.
fn wrong_kind_name(alloc: Global, name: &Name) -> ModelFault
    ensures { IsFault (fault.WrongKind name.now) result }
{
    match copy_name(alloc, name) {
        Ok(name) => ModelFault::WrongKind { name },
        Err(_) => ModelFault::Memory,
    }
}

/// Steps of a rule.
#[derive(Clone, Copy)]
struct Steps<'s, 'a>(&'s Sections<'a>);

impl<'s, 'a> Resolver for Steps<'s, 'a> {
    type Item = MoveText;

    type Value = (u32, Move);

    ghost value = { λ x. step_of x.0.now };

    ghost fault = { λ x. step_fault x.0.now };

    fn resolve(
        &self,
        alloc: Global,
        earlier: &[MoveText],
        step: &MoveText,
    ) -> Result<(u32, Move), ModelFault> {
        let Some(found) = self.0.find(&step.section) else {
            return Err(unknown_name(alloc, &step.section));
        };
        if is_touched(earlier, &step.section) {
            return Err(touched_twice_name(alloc, &step.section));
        }
        if !is_of_kind(&step.body, found.kind) {
            return Err(wrong_kind_name(alloc, &step.section));
        }
        let body = rename_move(alloc, found.letters, &step.body)?;
        Ok((found.number, body))
    }
}

/// A rule whose name is its own.
fn resolve_rule(alloc: Global, sections: &Sections, rule: &RuleText) -> Result<Rule, ModelFault>
    ensures { IsOutcome (first_fault_of (step_fault sections.now) [] rule.now.moves) (rule_of sections.now rule.now) result }
{
    let moves = resolve_each(alloc, &Steps(sections), rule.moves.as_slice())?;
    let name = copy_text(alloc, &rule.name.text)?;
    Ok(Rule { name, moves })
}

/// The rule, whose name is added to those of the rules before it; or its first fault, which is at its name where one of these has it.
fn resolve_next_rule<'a>(
    alloc: Global,
    sections: &Sections,
    names: &mut Names<'a>,
    rule: &'a RuleText,
) -> Result<Rule, ModelFault>
    requires { length names.old < MAX_NAMES }
    ensures outcome { IsOutcome (option_or (duplicate names.old rule.now.name)
        (first_fault_of (step_fault sections.now) [] rule.now.moves)) (rule_of sections.now rule.now) result }
    ensures added { IfOk result (λ _. names.new ≡ names.old ++ rule.now.name.text ∷ []) }
{
    add_name(alloc, names, &rule.name)?;
    resolve_rule(alloc, sections, rule)
}

/// The rules.
pub fn resolve_rules(
    alloc: Global,
    sections: &Sections,
    rules: &[RuleText],
) -> Result<Sequence<Rule>, ModelFault>
    requires { length rules.now ≤ MAX_RULES }
    ensures { IsOutcome (first_fault_of (rule_fault sections.now) [] rules.now) (map (rule_of sections.now) rules.now) result }
{
    let mut names = Names::new(alloc);
    resolve_rules_named(alloc, sections, &mut names, rules)
}

/// The rules, whose names are gathered.
fn resolve_rules_named<'a>(
    alloc: Global,
    sections: &Sections,
    names: &mut Names<'a>,
    rules: &'a [RuleText],
) -> Result<Sequence<Rule>, ModelFault>
    requires none { names.old ≡ [] }
    requires limit { length rules.now ≤ MAX_RULES }
    ensures { IsOutcome (first_fault_of (rule_fault sections.now) [] rules.now) (map (rule_of sections.now) rules.now) result }
{
    let mut resolved = Vec::new(alloc);
    'rules: for rule in rules {
        let next = resolve_next_rule(alloc, sections, names, rule)?;
        resolved.push(next)?;
    }
    Ok(Sequence::from_vec(resolved))
}
