//! Systems of protocols.
//! The parts are resolved in the order of the text, so that the first fault that is met is the first fault of the protocol.

ghost use Rattle.std.specs.Prelude.{◌≡◌, ◌⊎◌, [], None, Some, IfErr, IfOk, map};
ghost use Rattle.protocol_model.specs.Numbering.{texts_of, section_of, row_of, rule_of, system_of};
ghost use Rattle.protocol_model.specs.Faults.{first_fault, first_fault_of, section_fault};
ghost use Rattle.protocol_model.specs.Allowed.{IsAllowed};
ghost use Rattle.protocol_model.specs.declared.fault.ModelFault.TheVariants as fault;

use crate::fault::ModelFault;
use crate::rows::Rows;
use crate::rules::resolve_rules;
use crate::sections::{Sections, copy_text};
use crate::system::{Row, Rule, Section, System};
use crate::traversal::resolve_each;
use protocol_syntax::{Name, Protocol, SectionText};
use sequence::{Sequence, Text};
use std::alloc::{AllocError, Global};

/// The texts of letters.
fn copy_letters(alloc: Global, letters: &[Name]) -> Result<Sequence<Text>, AllocError>
    ensures { IfOk result (λ copies. copies ≡ texts_of letters.now) }
{
    let mut copies = Vec::new(alloc);
    'letters: for letter in letters {
        let copy = copy_text(alloc, &letter.text)?;
        copies.push(copy)?;
    }
    Ok(Sequence::from_vec(copies))
}

/// A section as written in the text.
fn copy_section(alloc: Global, section: &SectionText) -> Result<Section, AllocError>
    ensures { IfOk result (λ copy. copy ≡ section_of section.now) }
{
    let name = copy_text(alloc, &section.name.text)?;
    let letters = copy_letters(alloc, section.letters.as_slice())?;
    Ok(Section {
        name,
        kind: section.kind,
        letters,
    })
}

/// The sections as written in the text.
fn copy_sections(alloc: Global, sections: &[SectionText]) -> Result<Sequence<Section>, AllocError>
    ensures { IfOk result (λ copies. copies ≡ map section_of sections.now) }
{
    let mut copies = Vec::new(alloc);
    'sections: for section in sections {
        let copy = copy_section(alloc, section)?;
        copies.push(copy)?;
    }
    Ok(Sequence::from_vec(copies))
}

/// The system of a protocol without faults, whose rows and rules these are.
fn system_with(
    alloc: Global,
    protocol: &Protocol,
    init: Sequence<Row>,
    rules: Sequence<Rule>,
    bad: Sequence<Row>,
) -> Result<System, ModelFault>
    requires allowed { IsAllowed protocol.now }
    requires clean { first_fault protocol.now ≡ None }
    requires init { init ≡ map (row_of protocol.now.sections) protocol.now.init }
    requires rules { rules ≡ map (rule_of protocol.now.sections) protocol.now.rules }
    requires bad { bad ≡ map (row_of protocol.now.sections) protocol.now.bad }
    ensures system { IfOk result (λ system. (first_fault protocol.now ≡ None) × (system ≡ system_of protocol.now)) }
    ensures refused { IfErr result (λ e. (first_fault protocol.now ≡ Some e) ⊎ (e ≡ fault.Memory)) }
{
    let name = copy_text(alloc, &protocol.name.text)?;
    let sections = copy_sections(alloc, protocol.sections.as_slice())?;
    Ok(System {
        name,
        sections,
        init,
        rules,
        bad,
    })
}

/// The system of a protocol whose sections are these, and have no fault.
fn resolve_parts(
    alloc: Global,
    sections: &Sections,
    protocol: &Protocol,
) -> Result<System, ModelFault>
    requires allowed { IsAllowed protocol.now }
    requires sections { sections.now ≡ protocol.now.sections }
    requires clean { first_fault_of section_fault [] protocol.now.sections ≡ None }
    ensures system { IfOk result (λ system. (first_fault protocol.now ≡ None) × (system ≡ system_of protocol.now)) }
    ensures refused { IfErr result (λ e. (first_fault protocol.now ≡ Some e) ⊎ (e ≡ fault.Memory)) }
{
    let init = resolve_each(alloc, &Rows(sections), protocol.init.as_slice())?;
    let rules = resolve_rules(alloc, sections, protocol.rules.as_slice())?;
    let bad = resolve_each(alloc, &Rows(sections), protocol.bad.as_slice())?;
    system_with(alloc, protocol, init, rules, bad)
}

/// The system of a protocol: names are replaced by numbers, and `any` by all letters of the section.
///
/// The error is the first fault in the order of the text, with the name at which it stands.
pub fn resolve(alloc: Global, protocol: &Protocol) -> Result<System, ModelFault>
    requires { IsAllowed protocol.now }
    ensures system { IfOk result (λ system. (first_fault protocol.now ≡ None) × (system ≡ system_of protocol.now)) }
    ensures refused { IfErr result (λ e. (first_fault protocol.now ≡ Some e) ⊎ (e ≡ fault.Memory)) }
{
    let sections = Sections::new(alloc, protocol.sections.as_slice())?;
    resolve_parts(alloc, &sections, protocol)
}
