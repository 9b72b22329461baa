//! The gap between two neighbouring edges of a state, sorted by letter, in which the last letter fell. Two comparisons tell that a letter
//! in it has no edge, and the edge behind it is looked at first. Letters that are asked for in increasing order thus merge two lists;
//! others are searched by halves, in logarithmic time.

ghost use Rattle.std.specs.Prelude.{◌≡◌, ◌≤◌, ◌<◌, ℕ, IsTrue, IfOk, IfErr, length};
ghost use Rattle.word_automata.specs.Automaton.{HasIncreasingLetters, find_target};
ghost use Rattle.word_automata.specs.EdgeList.{letter_at, IsEdgeAt, IsGapFor};
ghost use Rattle.image_preimage.specs.Gaps.{IsGap, IsInGap};

use boolean_operations::search_near;

/// No edge has a letter above `low` and below `high`. The edge at the place, if there is one, is the first behind the gap.
#[derive(Drop)]
pub(crate) struct Gap {
    pub(crate) low: u32,
    pub(crate) high: u32,
    place: usize,
}

impl Gap {
    /// The gap before the first edge.
    pub(crate) fn new(edges: &[(u32, usize)]) -> Gap
        requires { HasIncreasingLetters edges.now }
        ensures { IsGap edges.now result.low result.high }
    {
        Gap {
            low: 0,
            high: letter_from(edges, 0),
            place: 0,
        }
    }

    /// Whether this is a letter in the gap, which has no edge then.
    pub(crate) fn has(&self, letter: Option<u32>) -> bool
        ensures { IsTrue result → IsInGap self.now.low self.now.high letter }
    {
        match letter {
            None => false,
            Some(letter) => self.low < letter && letter < self.high,
        }
    }

    /// Where the letter leads, if anywhere. The gap is then the one behind the letter.
    pub(crate) fn target(&mut self, edges: &[(u32, usize)], letter: u32) -> Option<usize>
        requires sorted { HasIncreasingLetters edges.now }
        requires gap { IsGap edges.now self.old.low self.old.high }
        ensures value { result ≡ find_target edges.now letter }
        ensures gap { IsGap edges.now self.new.low self.new.high }
    {
        if self.low < letter && letter < self.high {
            return None;
        }
        match self.find(edges, letter) {
            Ok(at) => {
                self.set(letter, letter_from(edges, at + 1), at + 1);
                Some(edges[at].1)
            }
            Err(at) => {
                self.set(letter, letter_from(edges, at), at);
                None
            }
        }
    }

    /// The place of the edge with the letter, or else the one where it would go. The edge behind the gap is looked at first, at once.
    fn find(&self, edges: &[(u32, usize)], letter: u32) -> Result<usize, usize>
        requires { HasIncreasingLetters edges.now }
        ensures found { IfOk result (IsEdgeAt edges.now letter) }
        ensures absent { IfErr result (IsGapFor edges.now letter) }
    {
        if self.place < edges.len() && edges[self.place].0 == letter {
            return Ok(self.place);
        }
        search_near(edges, self.place, letter)
    }

    /// Makes this the gap between these letters, behind which the place is.
    fn set(&mut self, low: u32, high: u32, place: usize)
        ensures low { self.new.low ≡ low }
        ensures high { self.new.high ≡ high }
    {
        self.low = low;
        self.high = high;
        self.place = place;
    }
}

/// The letter of the edge at the place, or the greatest number where there is none: those of later edges are not below it.
fn letter_from(edges: &[(u32, usize)], place: usize) -> u32
    requires { HasIncreasingLetters edges.now }
    ensures { (j : ℕ) → place ≤ j → j < length edges.now → result ≤ letter_at edges.now j }
{
    if place < edges.len() {
        return edges[place].0;
    }
    u32::MAX
}
