//! The states that a search has found, in the order in which it found them. A state is looked up by its code in a table of places, and
//! compared with the one that stands at its place: constant time, on average.

ghost use Rattle.std.specs.Prelude.{◌≡◌, ◌↔◌, ◌++◌, [], ◌∷◌, true, length, slice_get, Some, IfOk, IfSome, OnOk, IsTrue};

use crate::place_table::PlaceTable;
use std::alloc::{AllocError, Global};

/// The states that were found. The place of a state is the number of states before it.
#[derive(Drop)]
pub struct FoundStates<S> {
    /// The states, in the order in which they were pushed.
    pub states: Vec<S>,
    places: PlaceTable,
}

impl<S: Copy + Eq + Drop> FoundStates<S> {
    /// No state yet, in constant time and memory. Codes are to be below `codes`; others may cost more when they are looked up.
    /// `AllocError` where memory runs out.
    pub fn new(alloc: Global, codes: usize) -> Result<FoundStates<S>, AllocError>
        ensures { IfOk result (λ found. found.states.items ≡ []) }
    {
        Ok(FoundStates {
            states: Vec::new(alloc),
            places: PlaceTable::new(alloc, codes)?,
        })
    }

    /// The number of states that were found, in constant time.
    pub fn len(&self) -> usize
        ensures { result ≡ length self.now.states.items }
    {
        self.states.len()
    }

    /// Whether the state was seen at the place, which may be any number: where it says so, the state stands there, and that it always
    /// says so where it does is no clause. At most one comparison, and no memory.
    pub fn holds(&self, place: usize, state: &S) -> bool
        requires { (x y : S) → S.eq x y ≡ true → x ≡ y }
        ensures { IsTrue result → slice_get self.now.states.items place ≡ Some state.now }
    {
        stands_at(self.states.as_slice(), place, state)
    }

    /// A place at which the state stands, looked for by the code of the state, or `None`, which promises nothing. It takes constant time,
    /// on average, and no memory.
    pub fn find(&self, code: usize, state: &S) -> Option<usize>
        requires { (x y : S) → S.eq x y ≡ true → x ≡ y }
        ensures { IfSome result (λ place. slice_get self.now.states.items place ≡ Some state.now) }
    {
        let place = self.places.find(code);
        if self.holds(place, state) {
            return Some(place);
        }
        None
    }

    /// A place at which the state stands, looked for by the code of the state, or `None`. That a place is right is promised, and `None`
    /// promises nothing: the state may have been found before. After `None` the state is to be pushed next, since the table may have
    /// kept the next place for it. It takes constant time, on average. `AllocError` where memory runs out, or where there are
    /// 4,294,967,295 states or more; the states stay as they are in each case.
    pub fn look_up(&mut self, code: usize, state: &S) -> Result<Option<usize>, AllocError>
        requires { (x y : S) → S.eq x y ≡ true → x ≡ y }
        ensures same { self.new.states.items ≡ self.old.states.items }
        ensures place { IfOk result (λ found. IfSome found (λ place. slice_get self.old.states.items place ≡ Some state.now)) }
    {
        let place = self.places.place_of(code, self.states.len())?;
        if self.holds(place, state) {
            return Ok(Some(place));
        }
        Ok(None)
    }

    /// Adds the state at the end, also where it stands there already, in constant time, on average. `AllocError` where memory runs out.
    pub fn push(&mut self, state: S) -> Result<(), AllocError>
        ensures { OnOk result (self.new.states.items ≡ self.old.states.items ++ state ∷ []) }
    {
        self.states.push(state)?;
        Ok(())
    }
}

/// Whether the state stands at the place of the list, which may be any number.
pub(crate) fn stands_at<S: Eq>(states: &[S], place: usize, state: &S) -> bool
    requires { (x y : S) → S.eq x y ≡ true → x ≡ y }
    ensures { IsTrue result ↔ (slice_get states.now place ≡ Some state.now) }
{
    place < states.len() && states[place] == *state
}
