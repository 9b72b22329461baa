//! The properties that blocks of a text say of a system.
//! All rows are tested in the order of the text first, so that the fault that is met is the first one; each property then resolves its
//! own rows. So a row is resolved twice, and a block is compared with those before it.

ghost use Rattle.std.specs.Prelude.{◌≡◌, ◌≤◌, ◌⊎◌, None, Some, IfErr, IfOk, [], length, map};
ghost use Rattle.std.specs.List.{AllByRecursion, list_any};
ghost use Rattle.std.specs.Str.{bytes_eq};
ghost use Rattle.protocol_syntax.specs.declared.limits.TheConstants.{MAX_ROWS};
ghost use Rattle.protocol_model.specs.Faults.{row_fault, first_fault_of};
ghost use Rattle.protocol_model.specs.Numbering.{row_of, section_of};
ghost use Rattle.protocol_model.specs.Outcome.{IsOutcome};
ghost use Rattle.protocol_model.specs.System.{IsValidRow};
ghost use Rattle.protocol_model.specs.declared.fault.ModelFault.TheVariants as fault;
ghost use Rattle.protocol_properties.specs.Sections.{section_texts};
ghost use Rattle.protocol_properties.specs.Properties.{AreAllowedBlocks, first_properties_fault, properties_of, property_named, rows_named, with_bad_rows};

use crate::sections::section_texts;
use protocol_model::{ModelFault, Row, Sections, System, copy_text, resolve_row};
use protocol_syntax::{Name, RowText};
use sequence::{Sequence, Text};
use std::alloc::{AllocError, Global};

/// A property: its name, and the system whose bad configurations are those of the property.
#[derive(Drop)]
pub struct Property {
    /// The name.
    pub name: Text,
    /// The system with the property's rows in place of its bad rows.
    pub system: System,
}

/// Tests the rows of all blocks, in their order.
fn test_rows(
    alloc: Global,
    sections: &Sections,
    blocks: &[(Name, RowText)],
) -> Result<(), ModelFault>
    ensures { IsOutcome (first_fault_of (λ _ block. row_fault sections.now block.1) [] blocks.now) tt result }
{
    'each_block: for block in blocks {
        resolve_row(alloc, sections, &block.1)?;
    }
    Ok(())
}

/// Whether the block has this name.
fn has_name(block: &(Name, RowText), name: &Name) -> bool
    ensures { result ≡ bytes_eq block.now.0.text name.now.text }
{
    block.0.text.as_str() == name.text.as_str()
}

/// Whether one of the blocks has this name.
fn is_named(blocks: &[(Name, RowText)], name: &Name) -> bool
    ensures { result ≡ list_any (λ block. bytes_eq block.0.text name.now.text) blocks.now }
{
    blocks.iter().any(|block| has_name(block, name))
}

/// The rows of the blocks of this name, where no row of a block has a fault.
fn resolve_rows_named(
    alloc: Global,
    sections: &Sections,
    blocks: &[(Name, RowText)],
    name: &Name,
) -> Result<Sequence<Row>, ModelFault>
    requires { first_fault_of (λ _ block. row_fault sections.now block.1) [] blocks.now ≡ None }
    ensures rows { IfOk result (λ rows. rows ≡ map (row_of sections.now) (rows_named name.now.text blocks.now)) }
    ensures refused { IfErr result (λ e. e ≡ fault.Memory) }
{
    let mut rows = Vec::new(alloc);
    'each_block: for block in blocks {
        if !has_name(block, name) {
            continue;
        }
        rows.push(resolve_row(alloc, sections, &block.1)?)?;
    }
    Ok(Sequence::from_vec(rows))
}

/// The system with these bad rows in place of its own.
fn copy_with_bad_rows(
    alloc: Global,
    system: &System,
    bad: Sequence<Row>,
) -> Result<System, AllocError>
    requires valid { AllByRecursion (IsValidRow system.now.sections) bad }
    requires limit { length bad ≤ MAX_ROWS }
    ensures { IfOk result (λ copy. copy ≡ with_bad_rows system.now bad) }
{
    let mut copy = system.copy(alloc)?;
    copy.bad = bad;
    Ok(copy)
}

/// The property of this name, where no row of a block has a fault.
fn resolve_property(
    alloc: Global,
    system: &System,
    sections: &Sections,
    blocks: &[(Name, RowText)],
    name: &Name,
) -> Result<Property, ModelFault>
    requires sections { sections.now ≡ section_texts system.now }
    requires allowed { AreAllowedBlocks blocks.now }
    requires clean { first_properties_fault system.now blocks.now ≡ None }
    ensures property { IfOk result (λ property. property ≡ property_named system.now blocks.now name.now.text) }
    ensures refused { IfErr result (λ e. e ≡ fault.Memory) }
{
    let bad = resolve_rows_named(alloc, sections, blocks, name)?;
    let name = copy_text(alloc, &name.text)?;
    let system = copy_with_bad_rows(alloc, system, bad)?;
    Ok(Property { name, system })
}

/// The properties of the blocks, in the order of their first blocks, where these are the sections of the system.
fn resolve_blocks(
    alloc: Global,
    system: &System,
    sections: &Sections,
    blocks: &[(Name, RowText)],
) -> Result<Sequence<Property>, ModelFault>
    requires sections { sections.now ≡ section_texts system.now }
    requires allowed { AreAllowedBlocks blocks.now }
    ensures properties { IfOk result (λ properties. (first_properties_fault system.now blocks.now ≡ None)
        × (properties ≡ properties_of system.now blocks.now)) }
    ensures refused { IfErr result (λ e. (first_properties_fault system.now blocks.now ≡ Some e) ⊎ (e ≡ fault.Memory)) }
{
    test_rows(alloc, sections, blocks)?;
    let mut properties = Vec::new(alloc);
    'each_block: for (i, block) in blocks.iter().enumerate() {
        if is_named(&blocks[..i], &block.0) {
            continue;
        }
        let property = resolve_property(alloc, system, sections, blocks, &block.0)?;
        properties.push(property)?;
    }
    Ok(Sequence::from_vec(properties))
}

/// The properties of the blocks, in the order of their first blocks: blocks of one name are the bad rows of one property, which holds the
/// system with these rows in place of its bad rows.
///
/// The error is the first fault in the order of the text, with the name at which it stands: `Unknown` or `Duplicate`, as in the rows of
/// a protocol; or there is no memory.
pub fn resolve_properties(
    alloc: Global,
    system: &System,
    blocks: &[(Name, RowText)],
) -> Result<Sequence<Property>, ModelFault>
    requires { AreAllowedBlocks blocks.now }
    ensures properties { IfOk result (λ properties. (first_properties_fault system.now blocks.now ≡ None)
        × (properties ≡ properties_of system.now blocks.now)) }
    ensures refused { IfErr result (λ e. (first_properties_fault system.now blocks.now ≡ Some e) ⊎ (e ≡ fault.Memory)) }
{
    let texts = section_texts(alloc, system.sections.as_slice())?;
    let sections = Sections::new(alloc, texts.as_slice())?;
    resolve_blocks(alloc, system, &sections, blocks)
}
