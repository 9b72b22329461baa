//! Triples of a state of a transducer, a state of the automaton whose words are read, and a state of the automaton in which the words that
//! are written are looked for, or none. The edges of the three are merged where they are sorted alike, and a triple is found by its number
//! in a table: constant time for each edge of the transducer, on average.

ghost use Rattle.std.specs.Prelude.{◌≡◌, ℕ, false, true, [], ◌∷◌, Some, Contains, IsTrue, OnOk, slice_get, slice_index_or};
ghost use Rattle.word_automata.specs.Path.{edges_of, is_accepting};
ghost use Rattle.word_automata.specs.Automaton.{Automaton, HasIncreasingLetters};
ghost use Rattle.image_preimage.specs.Gaps.{IsGap};
ghost use Rattle.image_preimage.specs.Images.{HasImageOutside};
ghost use Rattle.image_preimage.specs.Pairs.{advance};
ghost use Rattle.image_preimage.specs.private.Triples.{is_goal, triple_of, AreReached, Finds, Follows, IsFound, IsGapAt, LeadsOut, Visits, or_no_state};

use crate::copying_states::has_flag;
use crate::gap::Gap;
use exploration::FoundStates;
use std::alloc::AllocError;
use transducers::{Label, Transducer};
use word_automata::Dfa;

/// A state of the transducer, on the left, one of the automaton whose words are read, and one of the automaton in which the words that are
/// written are looked for, on the right; a number that is none of its states stands for no state.
#[derive(Clone, Copy, PartialEq, Eq)]
pub(crate) struct Triple {
    pub(crate) left: usize,
    pub(crate) middle: usize,
    pub(crate) right: usize,
}

/// What the triples are of, and flags of the states from which the transducer only copies.
#[derive(Drop)]
pub(crate) struct Triples<'a> {
    pub(crate) t: &'a Transducer,
    pub(crate) a: &'a Dfa,
    pub(crate) b: &'a Dfa,
    pub(crate) copying: &'a [bool],
}

/// What the last edge of a triple met: the place of the triple to which it led, and a gap between the edges of each automaton's state.
#[derive(Drop)]
struct Near {
    place: usize,
    read: Gap,
    written: Gap,
}

impl Triples<'_> {
    /// A number above the codes of all triples.
    pub(crate) fn codes(&self) -> usize {
        let pairs = self.t.states().saturating_mul(self.a.states());
        pairs.saturating_mul(self.b.states() + 1)
    }

    /// The code of the triple: no other triple has it.
    fn code(&self, triple: &Triple) -> usize {
        let row = triple.left.wrapping_mul(self.a.states());
        let pair = row.wrapping_add(triple.middle);
        pair.wrapping_mul(self.b.states() + 1)
            .wrapping_add(triple.right)
    }

    /// Whether the transducer and the automaton that is read accept there, and the other automaton does not.
    pub(crate) fn is_goal(&self, triple: &Triple) -> bool
        ensures { result ≡ is_goal self.now.t.now self.now.a.now self.now.b.now triple.now }
    {
        self.t.is_accepting(triple.left)
            && accepts_at(self.a, triple.middle)
            && !accepts_at(self.b, triple.right)
    }

    /// Finds the start states of the transducer with the start states of both automata.
    pub(crate) fn begin(&self, found: &mut FoundStates<Triple>) -> Result<(), AllocError>
        requires { AreReached self.now.t.now self.now.a.now self.now.b.now found.old.states.items }
        ensures reached { OnOk result (AreReached self.now.t.now self.now.a.now self.now.b.now found.new.states.items) }
        ensures starts { OnOk result ((p : ℕ) → Contains self.now.t.now.starts p → IsFound found.new.states.items (triple_of p 0 0)) }
    {
        'starts: for start in self.t.starts() {
            let triple = Triple {
                left: *start,
                middle: 0,
                right: 0,
            };
            self.find(found, triple, 0)?;
        }
        Ok(())
    }

    /// Whether both automata are in one state, and the transducer in one from which it only copies.
    pub(crate) fn is_copied(&self, triple: &Triple) -> bool
        ensures state { IsTrue result → triple.now.middle ≡ triple.now.right }
        ensures flag { IsTrue result → slice_index_or self.now.copying.now triple.now.left false ≡ true }
    {
        triple.middle == triple.right && has_flag(self.copying, triple.left)
    }

    /// Goes on from the triple at the place, unless both automata are known to be the same and all that is reached from there is one state
    /// of both.
    pub(crate) fn visit(
        &self,
        found: &mut FoundStates<Triple>,
        are_same: bool,
        place: usize,
        triple: Triple,
    ) -> Result<(), AllocError>
        requires same { IsTrue are_same → self.now.a.now ≡ self.now.b.now }
        requires there { slice_get found.old.states.items place ≡ Some triple }
        requires reached { AreReached self.now.t.now self.now.a.now self.now.b.now found.old.states.items }
        ensures { OnOk result (Visits self.now.t.now self.now.a.now self.now.b.now self.now.copying.now found.old.states.items
            found.new.states.items triple) }
    {
        if are_same && self.is_copied(&triple) {
            return Ok(());
        }
        self.expand(found, place, triple)
    }

    /// Finds where the edges lead from the triple at the place.
    fn expand(
        &self,
        found: &mut FoundStates<Triple>,
        place: usize,
        triple: Triple,
    ) -> Result<(), AllocError>
        requires there { slice_get found.old.states.items place ≡ Some triple }
        requires reached { AreReached self.now.t.now self.now.a.now self.now.b.now found.old.states.items }
        ensures { OnOk result (Follows self.now.t.now self.now.a.now self.now.b.now found.old.states.items found.new.states.items triple
            (edges_of self.now.t.now.states triple.left)) }
    {
        let read = edges_at(self.a, triple.middle);
        let written = edges_at(self.b, triple.right);
        let mut near = Near {
            place,
            read: Gap::new(read),
            written: Gap::new(written),
        };
        'edges: for edge in self.t.edges(triple.left) {
            if near.read.has(edge.0.read) {
                continue;
            }
            self.follow(found, triple, *edge, read, written, &mut near)?;
        }
        Ok(())
    }

    /// Finds where the edge leads from the triple, whose other states have these edges. What is near the last edge is looked at first.
    fn follow(
        &self,
        found: &mut FoundStates<Triple>,
        triple: Triple,
        edge: (Label, usize),
        read: &[(u32, usize)],
        written: &[(u32, usize)],
        near: &mut Near,
    ) -> Result<(), AllocError>
        requires is_edge { Contains (edges_of self.now.t.now.states triple.left) edge }
        requires there { IsFound found.old.states.items triple }
        requires reached { AreReached self.now.t.now self.now.a.now self.now.b.now found.old.states.items }
        requires read { IsGapAt self.now.a.now triple.middle read.now near.old.read.low near.old.read.high }
        requires written { IsGapAt self.now.b.now triple.right written.now near.old.written.low near.old.written.high }
        ensures follows { OnOk result (Follows self.now.t.now self.now.a.now self.now.b.now found.old.states.items
            found.new.states.items triple (edge ∷ [])) }
        ensures read { IsGapAt self.now.a.now triple.middle read.now near.new.read.low near.new.read.high }
        ensures written { IsGapAt self.now.b.now triple.right written.now near.new.written.low near.new.written.high }
    {
        let Some(middle) = target_of(triple.middle, edge.0.read, read, &mut near.read) else {
            return Ok(());
        };
        let to = target_of(triple.right, edge.0.write, written, &mut near.written);
        let next = Triple {
            left: edge.1,
            middle,
            right: or_no_state(self.b, to),
        };
        near.place = self.find(found, next, near.place)?;
        Ok(())
    }

    /// The place of the triple, which is a new one where it was not found before. The place `last` is looked at first: neighbouring edges
    /// often lead to one triple.
    fn find(
        &self,
        found: &mut FoundStates<Triple>,
        triple: Triple,
        last: usize,
    ) -> Result<usize, AllocError>
        requires reached { AreReached self.now.t.now self.now.a.now self.now.b.now found.old.states.items }
        requires triple { LeadsOut self.now.t.now self.now.a.now self.now.b.now triple
            → HasImageOutside self.now.t.now self.now.a.now self.now.b.now }
        ensures { OnOk result (Finds self.now.t.now self.now.a.now self.now.b.now found.old.states.items found.new.states.items triple) }
    {
        if found.holds(last, &triple) {
            return Ok(last);
        }
        if let Some(place) = found.look_up(self.code(&triple), &triple)? {
            return Ok(place);
        }
        let place = found.len();
        found.push(triple)?;
        Ok(place)
    }
}

/// Where the optional letter leads from the state with these edges, if anywhere; without a letter to the state itself.
fn target_of(
    state: usize,
    letter: Option<u32>,
    edges: &[(u32, usize)],
    gap: &mut Gap,
) -> Option<usize>
    requires sorted { HasIncreasingLetters edges.now }
    requires gap { IsGap edges.now gap.old.low gap.old.high }
    ensures value { (a : Automaton) → edges.now ≡ edges_of a.states state → result ≡ advance a state letter }
    ensures gap { IsGap edges.now gap.new.low gap.new.high }
{
    match letter {
        None => Some(state),
        Some(letter) => gap.target(edges, letter),
    }
}

/// The state, or the number of states where there is none.
fn or_no_state(automaton: &Dfa, state: Option<usize>) -> usize
    ensures { result ≡ or_no_state automaton.now state }
{
    match state {
        Some(state) => state,
        None => automaton.states(),
    }
}

/// Whether the state is there and accepts.
fn accepts_at(automaton: &Dfa, state: usize) -> bool
    ensures { result ≡ is_accepting automaton.now.states state }
{
    if state >= automaton.states() {
        return false;
    }
    automaton.accepting(state)
}

/// The edges of the state, none where it is not there.
fn edges_at(automaton: &Dfa, state: usize) -> &[(u32, usize)]
    ensures edges { result.now ≡ edges_of automaton.now.states state }
    ensures sorted { HasIncreasingLetters result.now }
{
    if state >= automaton.states() {
        return &[];
    }
    automaton.edges_from(state)
}
