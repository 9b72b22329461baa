//! Rounds of refinement (E. F. Moore, 1956) whose classes are hashes of signatures, as in the refinement of colours by B. Weisfeiler and
//! A. Lehman (1968): a round looks nothing up and stores nothing but the classes. It takes time linear in the edges.
//!
//! Signatures with one hash fall into one class, so that classes are at most too coarse.

ghost use Rattle.std.specs.Prelude.{◌≡◌, IfOk, OnOk, length};
ghost use Rattle.word_automata.specs.Automaton.{IsValid};
ghost use Rattle.minimise.specs.private.Rounds.{AreToldApart, AreHashes};

use crate::acyclic::hash_backwards;
use crate::growth::Growth;
use crate::rows::{Row, rows};
use std::alloc::{AllocError, Global};
use word_automata::Dfa;

/// The most rounds: where classes split in halves in each round, these are enough for every automaton that fits into memory.
const MOST_ROUNDS: usize = 40;

/// Classes of states of which any two different ones are told apart by words, and those of the round before: by one pass where each edge
/// leads to a later state, and else by rounds, which end where few classes were new.
pub fn hashed_rounds(alloc: Global, automaton: &Dfa) -> Result<(Vec<usize>, Vec<usize>), AllocError>
    ensures valid { IfOk result (λ rounds. IsValid automaton.now) }
    ensures apart { IfOk result (λ rounds. AreToldApart automaton.now rounds.0.items) }
    ensures before { IfOk result (λ rounds. length rounds.1.items ≡ length automaton.now.states) }
{
    let count = automaton.states();
    let mut finer = vec![in alloc; 0; count]?;
    let mut classes = vec![in alloc; 0; count]?;
    if hash_backwards(automaton, &mut finer) {
        return Ok((finer, classes));
    }
    refine_by_hashes(alloc, automaton, &mut classes, &mut finer)?;
    Ok((classes, finer))
}

/// Refines the classes, and puts those of the round before in the place of what the other list has.
fn refine_by_hashes(
    alloc: Global,
    automaton: &Dfa,
    classes: &mut Vec<usize>,
    finer: &mut Vec<usize>,
) -> Result<(), AllocError>
    requires valid { IsValid automaton.now }
    requires apart { AreToldApart automaton.now classes.old.items }
    requires count { length finer.old.items ≡ length automaton.now.states }
    ensures apart { OnOk result (AreToldApart automaton.now classes.new.items) }
    ensures before { OnOk result (length finer.new.items ≡ length automaton.now.states) }
{
    let rows = rows(alloc, automaton)?;
    let mut growth = Growth::new(alloc, rows.len())?;
    'rounds: for _ in 0..MOST_ROUNDS {
        hash_all(&rows, classes, finer);
        std::mem::swap(classes, finer);
        if growth.is_over(classes) {
            return Ok(());
        }
    }
    Ok(())
}

/// Puts the hashes of the signatures of all states by the classes in the place of what the list has.
fn hash_all(rows: &[Row], classes: &[usize], finer: &mut Vec<usize>)
    requires classes { length classes.now ≡ length rows.now }
    requires finer { length finer.old.items ≡ length rows.now }
    ensures { AreHashes rows.now classes.now finer.new.items }
{
    'states: for state in 0..rows.len() {
        let row: &Row = &rows[state];
        finer[state] = row.hash(classes);
    }
}
