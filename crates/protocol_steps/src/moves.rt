//! The move of a section by a rule.
//! A rule names few sections, which are looked at one after the other.

ghost use Rattle.std.specs.Prelude.{◌≡◌, IfSome, option_map};
ghost use Rattle.std.specs.List.{AllByRecursion};
ghost use Rattle.protocol_model.specs.Steps.{move_of};
ghost use Rattle.protocol_moves.specs.Limits.{HasFewGuards};

use protocol_model::Move;

/// The move of the section of this number, if the rule names the section.
pub fn move_at<'a>(moves: &'a [(u32, Move)], section: u32) -> Option<&'a Move>
    requires { AllByRecursion (λ part. HasFewGuards part.1) moves.now }
    ensures found { option_map (λ step. step.now) result ≡ move_of moves.now section }
    ensures few_guards { IfSome result (λ step. HasFewGuards step.now) }
{
    'moves: for part in moves {
        if part.0 == section {
            return Some(&part.1);
        }
    }
    None
}
