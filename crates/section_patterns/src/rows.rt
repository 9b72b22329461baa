//! The words of rows: of each row alone, and then of all together.
//! Each row is made canonical alone, and the rows are united by halves of their list, so that what a row has is gone through as often
//! as the list can be halved.

ghost use Rattle.std.specs.Prelude.{◌≡◌, ◌↔◌, ◌||◌, ℕ, List, [], ◌∷◌, false, IfOk, IsTrue};
ghost use Rattle.std.specs.List.{AllByRecursion};
ghost use Rattle.word_automata.specs.Automaton.{accepts};
ghost use Rattle.minimise.specs.Canonical.{IsCanonical};
ghost use Rattle.protocol_model.specs.System.{IsValidRow};
ghost use Rattle.protocol_model.specs.Words.{automata_letters};
ghost use Rattle.section_patterns.specs.private.Lists.{IsWordOfRows};

use crate::sections::add_sections;
use boolean_operations::union;
use minimise::{Canon, canonical, canonical_nfa};
use protocol_model::{Row, System};
use std::alloc::{AllocError, Global};
use word_automata::{DfaBuilder, NfaBuilder};

/// The canonical automaton of the words of the configurations that some of the rows match.
pub(crate) fn words_of_rows(
    alloc: Global,
    system: &System,
    rows: &[Row],
) -> Result<Canon, AllocError>
    requires { AllByRecursion (IsValidRow system.now.sections) rows.now }
    ensures language { IfOk result (λ c. (w : List ℕ) → IsTrue (accepts c w) ↔ IsWordOfRows system.now rows.now w) }
    ensures letters { IfOk result (λ c. c.letters ≡ automata_letters system.now) }
    ensures canonical { IfOk result IsCanonical }
{
    if rows.is_empty() {
        return no_words(alloc, system);
    }
    if rows.len() == 1 {
        return words_of_row(alloc, system, &rows[0]);
    }
    let (first, second) = rows.split_at(rows.len() / 2);
    let a = words_of_rows(alloc, system, first)?;
    let b = words_of_rows(alloc, system, second)?;
    united(alloc, &a, &b)
}

/// The canonical automaton of no word.
fn no_words(alloc: Global, system: &System) -> Result<Canon, AllocError>
    ensures language { IfOk result (λ c. (w : List ℕ) → accepts c w ≡ false) }
    ensures letters { IfOk result (λ c. c.letters ≡ automata_letters system.now) }
    ensures canonical { IfOk result IsCanonical }
{
    let none = DfaBuilder::new(alloc, system.separator() + 1).finish();
    Ok(canonical(alloc, &none)?)
}

/// The canonical automaton of the words of both automata. Both have the same letters.
fn united(alloc: Global, a: &Canon, b: &Canon) -> Result<Canon, AllocError>
    requires { a.now.letters ≡ b.now.letters }
    ensures language { IfOk result (λ c. (w : List ℕ) → accepts c w ≡ (accepts a.now w || accepts b.now w)) }
    ensures letters { IfOk result (λ c. c.letters ≡ a.now.letters) }
    ensures canonical { IfOk result IsCanonical }
{
    let both = union(alloc, a.as_dfa(), b.as_dfa())?;
    Ok(canonical(alloc, &both)?)
}

/// The canonical automaton of the words of the configurations that the row matches.
pub(crate) fn words_of_row(alloc: Global, system: &System, row: &Row) -> Result<Canon, AllocError>
    requires { IsValidRow system.now.sections row.now }
    ensures language { IfOk result (λ c. (w : List ℕ) → IsTrue (accepts c w) ↔ IsWordOfRows system.now (row.now ∷ []) w) }
    ensures letters { IfOk result (λ c. c.letters ≡ automata_letters system.now) }
    ensures canonical { IfOk result IsCanonical }
{
    let separator = system.separator();
    let mut builder = NfaBuilder::new(alloc, separator + 1);
    let front = add_sections(
        alloc,
        &mut builder,
        row,
        system.sections.as_slice(),
        0,
        0,
        separator,
    )?;
    builder.start(front)?;
    Ok(canonical_nfa(alloc, &builder.finish())?)
}
