//! Configurations that fit a system.
//! One pass over the lists; no memory is taken.

ghost use Rattle.std.specs.Prelude.{◌≡◌, nat_lt};
ghost use Rattle.protocol_model.specs.Patterns.{fits as is_fitting, list_fits as is_list_fitting, lists_fit as are_lists_fitting};
ghost use Rattle.std.specs.List.{list_all};

use protocol_model::{Configuration, Section, System};
use sequence::Sequence;

/// Whether each letter is below the count.
fn are_below(list: &[u32], count: usize) -> bool
    ensures { result ≡ list_all (λ letter. nat_lt letter count) list.now }
{
    list.iter().all(|letter| (*letter as usize) < count)
}

/// Whether the list has letters of the section alone, and one letter where the section is a cell.
fn list_fits(section: &Section, list: &[u32]) -> bool
    ensures { result ≡ is_list_fitting section.now list.now }
{
    are_below(list, section.letters.len()) && (section.has_any_length() || list.len() == 1)
}

/// Whether there is one list for each section, and each fits its section.
fn lists_fit(sections: &[Section], lists: &[Sequence<u32>]) -> bool
    ensures { result ≡ are_lists_fitting sections.now lists.now }
{
    if sections.len() != lists.len() {
        return false;
    }
    'sections: for k in 0..sections.len() {
        if !list_fits(&sections[k], lists[k].as_slice()) {
            return false;
        }
    }
    true
}

/// Whether the configuration has one list for each section, with letters of the section alone, and one letter for each cell.
/// It takes no memory.
pub fn fits(system: &System, c: &Configuration) -> bool
    ensures { result ≡ is_fitting system.now c.now }
{
    lists_fit(system.sections.as_slice(), c.lists.as_slice())
}
