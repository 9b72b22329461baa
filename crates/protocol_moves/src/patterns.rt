//! Which lists a pattern matches.
//! The atoms are simulated on the list letter by letter, as a nondeterministic automaton (Thompson's simulation): time is the product of
//! the numbers of letters and of atoms, and no memory is taken.

ghost use Rattle.std.specs.Prelude.{◌≡◌, ◌<◌, ◌≤◌, false, length};
ghost use Rattle.protocol_syntax.specs.declared.limits.TheConstants.{MAX_ATOMS};
ghost use Rattle.protocol_model.specs.Patterns.{atoms_match as is_matched};
ghost use Rattle.protocol_moves.specs.private.Simulation.{is_passed as passed, is_kept as kept, is_left as left, begun_after, going_after, reaches_end as reached_end};

use protocol_model::{Atom, is_in};
use protocol_syntax::Many;

/// Whether the next atom is reached without a letter, where this one is begun and going on so.
fn is_passed(many: Many, begun: bool, going: bool) -> bool
    ensures { result ≡ passed many begun going }
{
    match many {
        Many::One | Many::Plus => going,
        Many::Star => begun || going,
    }
}

/// Whether this atom is going on after a letter of its own.
fn is_kept(many: Many, begun: bool, going: bool) -> bool
    ensures { result ≡ kept many begun going }
{
    match many {
        Many::One => going,
        Many::Star | Many::Plus => begun || going,
    }
}

/// Whether the next atom is begun after a letter of this one.
fn is_left(many: Many, begun: bool) -> bool
    ensures { result ≡ left many begun }
{
    match many {
        Many::One => begun,
        Many::Star | Many::Plus => false,
    }
}

/// Takes one letter: which atoms are begun, and which are going on, after it.
fn read_letter(atoms: &[Atom], letter: u32, begun: &mut [bool], going: &mut [bool])
    requires begun_room { length atoms.now < length begun.old }
    requires going_room { length atoms.now ≤ length going.old }
    ensures begun { begun.new ≡ begun_after letter false false atoms.now begun.old going.old }
    ensures going { going.new ≡ going_after letter false atoms.now begun.old going.old }
{
    let mut reached = false;
    let mut next = false;
    'atoms: for j in 0..atoms.len() {
        let many = atoms[j].many;
        let fits = is_in(atoms[j].letters.as_slice(), letter);
        let was_begun = begun[j] | reached;
        let was_going = going[j];
        begun[j] = next;
        going[j] = fits & is_kept(many, was_begun, was_going);
        next = fits & is_left(many, was_begun);
        reached = is_passed(many, was_begun, was_going);
    }
    begun[atoms.len()] = next;
}

/// Whether the end of the atoms is reached without a further letter.
fn reaches_end(atoms: &[Atom], begun: &[bool], going: &[bool]) -> bool
    requires begun_room { length atoms.now < length begun.now }
    requires going_room { length atoms.now ≤ length going.now }
    ensures { result ≡ reached_end false atoms.now begun.now going.now }
{
    let mut reached = false;
    'atoms: for j in 0..atoms.len() {
        reached = is_passed(atoms[j].many, begun[j] | reached, going[j]);
    }
    begun[atoms.len()] | reached
}

/// Whether the list can be cut into pieces that match the atoms in their order, in time proportional to the length of the list.
pub fn atoms_match(atoms: &[Atom], list: &[u32]) -> bool
    requires { length atoms.now ≤ MAX_ATOMS }
    ensures { result ≡ is_matched atoms.now list.now }
{
    let mut begun = [false; 33];
    let mut going = [false; 32];
    begun[0] = true;
    'letters: for letter in list {
        read_letter(atoms, *letter, &mut begun, &mut going);
    }
    reaches_end(atoms, &begun, &going)
}
