//! Each rule of a system as one transducer.
//! The transducers of its sections are joined, from the last one backwards; time and memory are linear in their sizes.

ghost use Rattle.std.specs.Prelude.{◌≡◌, ◌↔◌, ◌<◌, ℕ, List, All, Some, IfOk, length, slice_get};
ghost use Rattle.protocol_model.specs.Words.{automata_letters};
ghost use Rattle.transducers.specs.Transducer.{Transducer, Relates};
ghost use Rattle.step_compiler.specs.Rules.{IsRuleStep};

use crate::sections::compile_sections;
use protocol_model::System;
use std::alloc::{AllocError, Global};
use transducers::{Transducer, join_sections};

/// One transducer for each rule of the system, in the order of the rules. It relates the words of two configurations
/// exactly where the rule leads from the one to the other, however long the lists of the sections are.
pub fn compile(alloc: Global, system: &System) -> Result<Vec<Transducer>, AllocError>
    ensures count { IfOk result (λ ts. length ts.items ≡ length system.now.rules) }
    ensures letters { IfOk result (λ ts. All (λ t. t.letters ≡ automata_letters system.now) ts.items) }
    ensures relates { IfOk result (λ ts. (r : ℕ) (t : Transducer) → slice_get ts.items r ≡ Some t
        → (u w : List ℕ) → Relates t u w ↔ IsRuleStep system.now r u w) }
{
    let count = system.rules.len();
    let mut compiled = Vec::with_capacity(alloc, count)?;
    'rules: for rule in 0..count {
        compiled.push(compile_rule(alloc, system, rule)?)?;
    }
    Ok(compiled)
}

/// The transducer of the rule of this number. It relates the words of two configurations exactly where the rule leads
/// from the one to the other, however long the lists of the sections are.
pub fn compile_rule(alloc: Global, system: &System, rule: usize) -> Result<Transducer, AllocError>
    requires { rule < length system.now.rules }
    ensures letters { IfOk result (λ t. t.letters ≡ automata_letters system.now) }
    ensures relates { IfOk result (λ t. (u w : List ℕ) → Relates t u w ↔ IsRuleStep system.now rule u w) }
{
    let rules = system.rules.as_slice();
    let moves = rules[rule].moves.as_slice();
    let separator = system.separator();
    let sections = system.sections.as_slice();
    let parts = compile_sections(alloc, sections, moves, separator + 1)?;
    join_sections(alloc, parts.as_slice(), separator)
}
