//! The generated protocol, a large input that is made from a number: a chain of letters, each of which a rule changes into the next, and
//! a letter that no rule writes. Its text is written from front to end, in time linear in the number.
#![tactic(auto)]

ghost use Rattle.std.specs.Prelude.{◌≡◌, ◌≤◌, ◌<◌, ◌++◌, IfOk, OnOk, string_bytes};
ghost use Rattle.chain_protocol.specs.Chain.{chain_text, joined, next_letter, rule_line};
ghost use Rattle.chain_protocol.specs.Meaning.{SaysChain};

use std::alloc::{AllocError, Global};

// Writes the letters, so many of them, each after a space.
fn write_letters(text: &mut String, count: u32) -> Result<(), AllocError>
    ensures { OnOk result (string_bytes text.new ≡ string_bytes text.old ++ joined next_letter count) }
{
    'letters: for i in 0..count {
        write!(text, " s{i}")?;
    }
    Ok(())
}

// Writes the rules, so many of them.
fn write_rules(text: &mut String, count: u32) -> Result<(), AllocError>
    requires { count < 255 }
    ensures { OnOk result (string_bytes text.new ≡ string_bytes text.old ++ joined rule_line count) }
{
    'rules: for i in 0..count {
        let next = i + 1;
        writeln!(text, "rule r{next} {{ P: at s{i} -> s{next}; }}")?;
    }
    Ok(())
}

/// The text of the chain with `number` letters beside `dead`, in canonical layout: its rules change letter i into letter i + 1. It says a
/// protocol without a fault. The search proves it safe in one round, whose sizes grow with the number.
///
/// Errors: `AllocError` where memory runs out.
pub fn generate(alloc: Global, number: u32) -> Result<Vec<u8>, AllocError>
    requires { (1 ≤ number) × (number ≤ 255) }
    ensures text { IfOk result (λ text. text.items ≡ chain_text number) }
    ensures chain { IfOk result (λ text. SaysChain number text.items) }
{
    let mut text = String::from_str(alloc, "protocol chain\narray P {")?;
    write_letters(&mut text, number)?;
    text.push_str(" dead }\ninit { P: s0 s0*; }\n")?;
    write_rules(&mut text, number - 1)?;
    text.push_str("bad { P: any* dead any*; }\n")?;
    Ok(text.into_bytes())
}
