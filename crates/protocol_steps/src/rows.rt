//! Which configurations are initial and which are bad.
//! Each row is tried in turn, and each pattern on the list of its section; no memory is taken.

ghost use Rattle.std.specs.Prelude.{◌≡◌, ◌≤◌, length};
ghost use Rattle.std.specs.List.{list_any, AllByRecursion};
ghost use Rattle.protocol_syntax.specs.declared.limits.TheConstants.{MAX_ATOMS};
ghost use Rattle.protocol_model.specs.Patterns.{list_at as list_of, row_matches as is_row_matched, is_initial as initial, is_bad as bad};

use crate::configurations::fits;
use protocol_model::{Configuration, Row, System};
use protocol_moves::atoms_match;

/// The list of the section of this number.
pub fn list_at(c: &Configuration, section: u32) -> &[u32]
    ensures { result.now ≡ list_of c.now section }
{
    match c.lists.as_slice().get(section as usize) {
        Some(list) => list.as_slice(),
        None => &[],
    }
}

/// Whether the row matches the lists of all sections that it names.
fn row_matches(c: &Configuration, row: &Row) -> bool
    requires { AllByRecursion (λ part. length part.1.atoms ≤ MAX_ATOMS) row.now.parts }
    ensures { result ≡ is_row_matched c.now row.now }
{
    'parts: for part in row.parts.as_slice() {
        if !atoms_match(part.1.atoms.as_slice(), list_at(c, part.0)) {
            return false;
        }
    }
    true
}

/// Whether one of the rows matches.
fn some_row_matches(c: &Configuration, rows: &[Row]) -> bool
    requires { AllByRecursion (λ row. AllByRecursion (λ part. length part.1.atoms ≤ MAX_ATOMS) row.parts) rows.now }
    ensures { result ≡ list_any (is_row_matched c.now) rows.now }
{
    'rows: for row in rows {
        if row_matches(c, row) {
            return true;
        }
    }
    false
}

/// Whether the configuration fits the system and some row of initial configurations matches it. It takes no memory.
pub fn is_initial(system: &System, c: &Configuration) -> bool
    ensures { result ≡ initial system.now c.now }
{
    fits(system, c) && some_row_matches(c, system.init.as_slice())
}

/// Whether the configuration fits the system and some row of bad configurations matches it. It takes no memory.
pub fn is_bad(system: &System, c: &Configuration) -> bool
    ensures { result ≡ bad system.now c.now }
{
    fits(system, c) && some_row_matches(c, system.bad.as_slice())
}
