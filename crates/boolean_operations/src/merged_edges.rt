//! Sorted lists of edges that are gone through letter by letter, as two lists are merged: constant time a step. A letter that is no
//! neighbour of the last one is searched by halves, in logarithmic time.

ghost use Rattle.std.specs.Prelude.{◌≡◌, ◌-◌, ◌<◌, ◌≤◌, ◌⊎◌, length, IfOk, IfErr, IsTrue};
ghost use Rattle.word_automata.specs.Automaton.{HasIncreasingLetters, find_target};
ghost use Rattle.word_automata.specs.EdgeList.{letter_at, IsEdgeAt, IsGapFor};
ghost use Rattle.boolean_operations.specs.private.MergedEdges.{IsPassed, IsTaken, IsLeastLetter};

/// The least letter of the edges from the place `i` of the first list and from the place `j` of the second.
pub(crate) fn least_letter(left: &[(u32, usize)], i: usize, right: &[(u32, usize)], j: usize) -> u32
    requires left { HasIncreasingLetters left.now }
    requires right { HasIncreasingLetters right.now }
    requires some { (i < length left.now) ⊎ (j < length right.now) }
    ensures { IsLeastLetter left.now i right.now j result }
{
    if i >= left.len() {
        return right[j].0;
    }
    if j >= right.len() || left[i].0 < right[j].0 {
        return left[i].0;
    }
    right[j].0
}

/// The target of the edge with the letter, if there is one, and the place behind the edges up to the letter. The edges before the
/// place `at` have smaller letters, and the others this letter or greater ones.
pub(crate) fn take(edges: &[(u32, usize)], at: usize, letter: u32) -> (Option<usize>, usize)
    requires sorted { HasIncreasingLetters edges.now }
    requires passed { IsPassed edges.now at letter }
    ensures { IsTaken edges.now at letter result.0 result.1 }
{
    if at < edges.len() && edges[at].0 == letter {
        return (Some(edges[at].1), at + 1);
    }
    (None, at)
}

/// The target of the edge with the letter, if there is one, and the place to look at for a letter that comes next. The place `near` is
/// looked at first, so that sorted letters take constant time each where most of them have an edge.
pub(crate) fn seek(edges: &[(u32, usize)], near: usize, letter: u32) -> (Option<usize>, usize)
    requires { HasIncreasingLetters edges.now }
    ensures { result.0 ≡ find_target edges.now letter }
{
    match search_near(edges, near, letter) {
        Ok(at) => (Some(edges[at].1), at + 1),
        Err(at) => (None, at),
    }
}

/// Looks for a letter among the edges of a state, letters with targets, which are sorted by letter: `Ok` with the place of the edge
/// that has the letter, and `Err`, where none has it, with the place where such an edge would go. `near` may be any number. It takes
/// constant time where `near` is that place, or where each letter has an edge; else the edges are searched by halves, in
/// logarithmic time. It takes no memory.
pub fn search_near(edges: &[(u32, usize)], near: usize, letter: u32) -> Result<usize, usize>
    requires { HasIncreasingLetters edges.now }
    ensures found { IfOk result (IsEdgeAt edges.now letter) }
    ensures absent { IfErr result (IsGapFor edges.now letter) }
{
    if is_edge_at(edges, near, letter) {
        return Ok(near);
    }
    if is_edge_at(edges, letter as usize, letter) {
        return Ok(letter as usize);
    }
    if is_gap_for(edges, near, letter) {
        return Err(near);
    }
    edges.binary_search_by_key(&letter, |&(letter, _)| letter)
}

/// Whether the edge at the place has the letter.
fn is_edge_at(edges: &[(u32, usize)], at: usize, letter: u32) -> bool
    ensures { IsTrue result → IsEdgeAt edges.now letter at }
{
    at < edges.len() && edges[at].0 == letter
}

/// Whether an edge with the letter would go at the place, and there is none.
fn is_gap_for(edges: &[(u32, usize)], at: usize, letter: u32) -> bool
    requires { HasIncreasingLetters edges.now }
    ensures { IsTrue result → IsGapFor edges.now letter at }
{
    if at > edges.len() {
        return false;
    }
    ends_below(edges, at, letter) && begins_above(edges, at, letter)
}

/// Whether the edge before the place, if there is one, has a smaller letter.
fn ends_below(edges: &[(u32, usize)], at: usize, letter: u32) -> bool
    requires { at ≤ length edges.now }
    ensures { IsTrue result → 0 < at → letter_at edges.now (at - 1) < letter }
{
    at == 0 || edges[at - 1].0 < letter
}

/// Whether the edge at the place, if there is one, has a greater letter.
fn begins_above(edges: &[(u32, usize)], at: usize, letter: u32) -> bool
    ensures { IsTrue result → at < length edges.now → letter < letter_at edges.now at }
{
    at >= edges.len() || letter < edges[at].0
}
