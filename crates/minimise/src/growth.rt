//! Whether rounds still find new classes: it is counted on how many places of a table the classes fall, which is about how many there are.
//! What is in the table bears the number of its round, so that nothing is cleared. It ends rounds alone: no contract rests on it. A call
//! takes time linear in the states.

use std::alloc::{AllocError, Global};

/// A table of places, each with the last round in which a class fell on it; on how many classes fell in the last round, and how many of
/// these were new; and how many rounds in a row found few new classes.
#[derive(Drop)]
pub struct Growth {
    places: Vec<u8>,
    round: u8,
    count: usize,
    grown: usize,
    quiet: usize,
}

impl Growth {
    /// Nothing has been counted. There are at least four places for each state.
    pub fn new(alloc: Global, states: usize) -> Result<Growth, AllocError> {
        Ok(Growth {
            places: vec![in alloc; 0; size(states)]?,
            round: 0,
            count: 0,
            grown: 0,
            quiet: 0,
        })
    }

    /// Whether next to no class is new, or for the third time in a row at most a sixteenth, or no more than before: splitters find the
    /// others sooner. At most 255 rounds are told apart.
    pub fn is_over(&mut self, classes: &[usize]) -> bool {
        self.round = self.round.wrapping_add(1);
        let count = count_places(&mut self.places, classes, self.round);
        let before = self.count;
        let grown = count.saturating_sub(before);
        self.count = count;
        self.quiet = if grown <= before / 16 || grown <= self.grown {
            self.quiet.wrapping_add(1)
        } else {
            0
        };
        self.grown = grown;
        grown <= before / 1024 || self.quiet >= 3
    }
}

/// On how many places the classes fall in the round.
fn count_places(places: &mut Vec<u8>, classes: &[usize], round: u8) -> usize {
    let mask = places.len().wrapping_sub(1);
    let mut count = 0usize;
    'classes: for class in classes {
        if let Some(place) = places.get_mut((*class / 65_536) & mask) {
            if *place != round {
                *place = round;
                count = count.wrapping_add(1);
            }
        }
    }
    count
}

/// A power of two, at least 1024 and, up to a billion, at least four times the states.
fn size(states: usize) -> usize {
    let mut size = 1024usize;
    'doublings: for _ in 0..20 {
        if size / 4 < states {
            size = size.wrapping_mul(2);
        }
    }
    size
}
