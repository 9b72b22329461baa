//! Steps of a system.
//! A step is one where each section's list changes by the rule's move of it, or stays; no memory is taken.

ghost use Rattle.std.specs.Prelude.{◌≡◌, ◌<◌, ◌↔◌, ℕ, IsTrue, option_copied};
ghost use Rattle.std.specs.List.{AllByRecursion};
ghost use Rattle.protocol_moves.specs.Limits.{HasFewGuards};
ghost use Rattle.protocol_model.specs.Patterns.{list_at as list_of};
ghost use Rattle.protocol_model.specs.Steps.{move_of, ChangesBy, IsStep};

use crate::configurations::fits;
use crate::moves::move_at;
use crate::rows::list_at;
use protocol_model::{Configuration, Move, System};
use protocol_moves::{is_equal, is_move};

/// Whether the list of a section changes by the rule's move of the section, or stays where the rule has none.
fn section_changes(moves: &[(u32, Move)], section: u32, old: &[u32], new: &[u32]) -> bool
    requires { AllByRecursion (λ part. HasFewGuards part.1) moves.now }
    ensures { IsTrue result ↔ ChangesBy (move_of moves.now section) old.now new.now }
{
    match move_at(moves, section) {
        Some(step) => is_move(step, old, new),
        None => is_equal(old, new),
    }
}

/// Whether each section's list changes by the moves.
fn all_change(moves: &[(u32, Move)], sections: u32, c: &Configuration, d: &Configuration) -> bool
    requires { AllByRecursion (λ part. HasFewGuards part.1) moves.now }
    ensures { IsTrue result ↔ ((k : ℕ) → k < sections → ChangesBy (move_of moves.now k) (list_of c.now k) (list_of d.now k)) }
{
    'sections: for k in 0..sections {
        if !section_changes(moves, k, list_at(c, k), list_at(d, k)) {
            return false;
        }
    }
    true
}

/// Whether there is a rule of this number, both configurations fit, and the rule leads from one to the other. It takes no memory.
pub fn is_step(system: &System, rule: u32, c: &Configuration, d: &Configuration) -> bool
    ensures { IsTrue result ↔ IsStep system.now rule c.now d.now }
{
    match system.rules.as_slice().get(rule as usize) {
        Some(rule) => {
            let sections = system.sections.len() as u32;
            fits(system, c) && fits(system, d) && all_change(rule.moves.as_slice(), sections, c, d)
        }
        None => false,
    }
}
