//! Whether a transducer relates two words: a search breadth first over how far each word is read and written, and the state, in which each
//! position is visited once (the membership of a pair of words in a rational relation). It takes time linear in the product of the
//! lengths of the words and the number of edges, on average.

ghost use Rattle.std.specs.Prelude.{◌≡◌, ◌↔◌, ◌<◌, ◌++◌, List, ℕ, IsTrue, IfOk, IfSome, IfNone, OnOk, MatchOption, Some, slice_get, drop};
ghost use Rattle.indexmap.specs.IndexSet.{index_set_len};
ghost use Rattle.word_automata.specs.Path.{edges_of, spelled_one};
ghost use Rattle.transducers.specs.Transducer.{Relates};
ghost use Rattle.transducers.specs.Search.{Inserts, Follows, IsBlocked, IsEnd, AreStarts, Expands};

use crate::{Label, Transducer};
use indexmap::IndexSet;
use std::alloc::{AllocError, Global};

/// How many letters are read and how many are written, and the state.
#[derive(Clone, Copy, PartialEq, Eq, Hash)]
struct Position {
    read: usize,
    written: usize,
    state: usize,
}

/// Whether `t` relates `u` to `w`. It takes time polynomial in the words and the transducer: each position is visited once.
pub fn relates(alloc: Global, t: &Transducer, u: &[u32], w: &[u32]) -> Result<bool, AllocError>
    ensures { IfOk result (λ answer. IsTrue answer ↔ Relates t.now u.now w.now) }
{
    let mut found = start_positions(alloc, t)?;
    let mut next = 0;
    'positions: while next < found.len() {
        let position = position_at(&found, next);
        if is_end(t, u, w, position) {
            return Ok(true);
        }
        expand(&mut found, t, u, w, position)?;
        next += 1;
    }
    Ok(false)
}

/// The positions at the start states, before either word.
fn start_positions(alloc: Global, t: &Transducer) -> Result<IndexSet<Position>, AllocError>
    ensures { IfOk result (λ found. AreStarts t.now.starts found.keys) }
{
    let mut found = IndexSet::new(alloc);
    'starts: for start in t.starts() {
        insert(
            &mut found,
            Position {
                read: 0,
                written: 0,
                state: *start,
            },
        )?;
    }
    Ok(found)
}

/// Inserts the positions to which the edges of the state lead from `position`.
fn expand(
    found: &mut IndexSet<Position>,
    t: &Transducer,
    u: &[u32],
    w: &[u32],
    position: Position,
) -> Result<(), AllocError>
    ensures { OnOk result (Expands (edges_of t.now.states position.state) u.now w.now position found.old.keys found.new.keys) }
{
    'edges: for edge in t.edges(position.state) {
        if let Some(next) = follow(u, w, position, *edge) {
            insert(found, next)?;
        }
    }
    Ok(())
}

/// The position to which the edge leads, if both words go on with its letters.
fn follow(u: &[u32], w: &[u32], position: Position, edge: (Label, usize)) -> Option<Position>
    ensures { MatchOption result (IsBlocked u.now w.now position edge) (Follows u.now w.now position edge) }
{
    let read = advance(u, position.read, edge.0.read)?;
    let written = advance(w, position.written, edge.0.write)?;
    Some(Position {
        read,
        written,
        state: edge.1,
    })
}

/// The place in the word behind the optional letter, if the word goes on with it at `place`.
fn advance(word: &[u32], place: usize, letter: Option<u32>) -> Option<usize>
    ensures found { IfSome result (λ next. drop place word.now ≡ spelled_one letter ++ drop next word.now) }
    ensures none { IfNone result ((rest : List ℕ) → drop place word.now ≡ spelled_one letter ++ rest → ⊥) }
{
    match letter {
        None => Some(place),
        Some(a) if place < word.len() && word[place] == a => Some(place + 1),
        Some(_) => None,
    }
}

/// Whether both words end at the position and its state accepts.
fn is_end(t: &Transducer, u: &[u32], w: &[u32], position: Position) -> bool
    ensures { IsTrue result ↔ IsEnd t.now u.now w.now position }
{
    u.len() <= position.read && w.len() <= position.written && t.is_accepting(position.state)
}

/// The position with this number.
fn position_at(found: &IndexSet<Position>, number: usize) -> Position
    requires { number < index_set_len found.now }
    ensures { slice_get found.now.keys number ≡ Some result }
{
    found.as_slice()[number]
}

/// Inserts a position where it is not there yet.
fn insert(found: &mut IndexSet<Position>, position: Position) -> Result<(), AllocError>
    ensures { OnOk result (Inserts found.old.keys found.new.keys position) }
{
    found.insert(position)?;
    Ok(())
}
