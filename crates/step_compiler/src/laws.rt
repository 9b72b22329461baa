//! A law of steps on words.
//! It has no code: it is the contract of a function that does nothing.

ghost use Rattle.std.specs.Prelude.{◌↔◌, ℕ, List};
ghost use Rattle.protocol_model.specs.System.{SystemData};
ghost use Rattle.protocol_model.specs.Words.{IsWordStep};
ghost use Rattle.step_compiler.specs.Rules.{IsRuleStep};

/// Two words are those of a step of the system exactly where they are those of a step of some rule.
pub fn word_steps_are_rule_steps()
    ensures { (s : SystemData) (u w : List ℕ) → IsWordStep s u w ↔ ((r : ℕ) × IsRuleStep s r u w) }
{}
