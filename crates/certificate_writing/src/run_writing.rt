//! The text of a run, line after line, under a first line that is given.
//! It costs what its bytes cost.

ghost use Rattle.std.specs.Prelude.{◌≡◌, ◌++◌, ◌∷◌, ◌<◌, [], All, IfOk, OnOk, IsTrue, length};
ghost use Rattle.protocol_model.specs.Patterns.{fits};
ghost use Rattle.configuration_words.specs.Texts.{configuration_text};
ghost use Rattle.certificate.specs.RunText.{rule_name, step_line, IsRunOf, IsStepOf, MeansRun, run_text, steps_text, unsafe_text};

use crate::writing::push_words;
use configuration_words::configuration_text;
use protocol_model::{Configuration, Run, System};
use std::alloc::{AllocError, Global};

/// The text of a certificate that is this run: its first configuration, and for each step the name of its rule and the
/// configuration after it. The only error is that memory ran out.
pub fn write_unsafe(alloc: Global, system: &System, run: &Run) -> Result<Vec<u8>, AllocError>
    requires { IsRunOf system.now run.now }
    ensures text { IfOk result (λ text. text.items ≡ unsafe_text system.now run.now) }
    ensures meaning { IfOk result (λ text. MeansRun system.now text.items run.now) }
{
    let _rules = system.rules.len();
    let text = write_run(alloc, "armc 1 unsafe", system, run)?;
    Ok(text)
}

/// The text of this run under a first line: its first configuration, and for each step the name of its rule and the configuration
/// after it. The only error is that memory ran out.
pub fn write_run(
    alloc: Global,
    first: &str,
    system: &System,
    run: &Run,
) -> Result<Vec<u8>, AllocError>
    requires { IsRunOf system.now run.now }
    ensures { IfOk result (λ text. text.items ≡ run_text first.now system.now run.now) }
{
    let mut text = Vec::from_slice(alloc, first.as_bytes())?;
    text.extend_from_slice(b"\nstart ")?;
    push_configuration(alloc, &mut text, system, &run.first)?;
    push_steps(alloc, &mut text, system, run.steps.as_slice())?;
    text.extend_from_slice(b"end\n")?;
    Ok(text)
}

/// Adds the lines of steps.
fn push_steps(
    alloc: Global,
    text: &mut Vec<u8>,
    system: &System,
    steps: &[(u32, Configuration)],
) -> Result<(), AllocError>
    requires { All (IsStepOf system.now) steps.now }
    ensures { OnOk result (text.new.items ≡ text.old.items ++ steps_text system.now steps.now) }
{
    'steps: for step in steps {
        push_step(alloc, text, system, step.0, &step.1)?;
    }
    Ok(())
}

/// Adds the line of a step by the rule of this number to the configuration.
fn push_step(
    alloc: Global,
    text: &mut Vec<u8>,
    system: &System,
    rule: u32,
    configuration: &Configuration,
) -> Result<(), AllocError>
    requires rule { rule < length system.now.rules }
    requires fits { IsTrue (fits system.now configuration.now) }
    ensures { OnOk result (text.new.items ≡ text.old.items ++ (step_line system.now (rule, configuration.now) ++ 10 ∷ [])) }
{
    push_words(text, &[b"step ", name_of(system, rule), b" "])?;
    push_configuration(alloc, text, system, configuration)
}

/// The name of the rule of this number.
fn name_of(system: &System, rule: u32) -> &[u8]
    requires { rule < length system.now.rules }
    ensures { result.now ≡ rule_name system.now rule }
{
    system.rules.as_slice()[rule as usize]
        .name
        .as_str()
        .as_bytes()
}

/// Adds the text of the configuration and a line feed.
fn push_configuration(
    alloc: Global,
    text: &mut Vec<u8>,
    system: &System,
    configuration: &Configuration,
) -> Result<(), AllocError>
    requires { IsTrue (fits system.now configuration.now) }
    ensures { OnOk result (text.new.items ≡ text.old.items ++ (configuration_text system.now configuration.now ++ 10 ∷ [])) }
{
    let printed = configuration_text(alloc, system, configuration)?;
    push_words(text, &[printed.as_slice(), b"\n"])
}
