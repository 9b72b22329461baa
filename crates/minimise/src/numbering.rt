//! Classes by their first states, which are chained in buckets by the remainders of their classes (Knuth, The Art of Computer Programming,
//! volume 3, section 6.4). It takes time linear in the states, on average over classes that are hashes, and where classes are at most
//! about as large as the number of states.

ghost use Rattle.std.specs.Prelude.{◌≡◌, ◌<◌, ◌≤◌, ◌^◌, ◌++◌, ◌∷◌, [], IfOk, length, slice_index};
ghost use Rattle.minimise.specs.Refinement.{AreGrouped};
ghost use Rattle.minimise.specs.private.Numbering.{AreNumbered, AreInBuckets, IsFound};

use std::alloc::{AllocError, Global};
use word_automata::Dfa;

/// The same classes of the states: 0 for class 0, and else one more than the least state of the class.
pub fn by_least_states(
    alloc: Global,
    automaton: &Dfa,
    classes: &[usize],
) -> Result<Vec<usize>, AllocError>
    requires { length classes.now ≡ length automaton.now.states }
    ensures { IfOk result (λ least. AreGrouped (slice_index classes.now) (length automaton.now.states) least.items) }
{
    let count = automaton.states();
    let mut least = Vec::with_capacity(alloc, count)?;
    let mut heads = vec![in alloc; 0usize; 2 * count + 1]?;
    let mut links = vec![in alloc; 0usize; count]?;
    'states: for state in 0..count {
        let number = number_of(&mut heads, &mut links, classes, &least, state);
        least.push(number)?;
    }
    Ok(least)
}

/// The number of the next state. Where its class is new, it is put before the last state of the bucket.
fn number_of(
    heads: &mut Vec<usize>,
    links: &mut Vec<usize>,
    classes: &[usize],
    least: &[usize],
    state: usize,
) -> usize
    requires next { length least.now ≡ state }
    requires within { state < length classes.now }
    requires small { length classes.now < 2 ^ 63 }
    requires numbered { AreNumbered classes.now least.now }
    requires buckets { AreInBuckets (length heads.old.items) classes.now heads.old.items links.old.items least.now }
    ensures numbered { AreNumbered classes.now (least.now ++ result ∷ []) }
    ensures buckets { AreInBuckets (length heads.new.items) classes.now heads.new.items links.new.items (least.now ++ result ∷ []) }
    ensures count { length heads.new.items ≡ length heads.old.items }
{
    let class = classes[state];
    if class == 0 {
        return 0;
    }
    let found = find(heads, links, classes, least, class);
    if found != 0 {
        return found;
    }
    let bucket = class % heads.len();
    links[state] = heads[bucket];
    heads[bucket] = state + 1;
    state + 1
}

/// The number of the class, 0 where it has none.
fn find(heads: &[usize], links: &[usize], classes: &[usize], least: &[usize], class: usize) -> usize
    requires within { length least.now ≤ length classes.now }
    requires buckets { AreInBuckets (length heads.now) classes.now heads.now links.now least.now }
    ensures { IsFound classes.now least.now class result }
{
    let mut number = heads[class % heads.len()];
    'firsts: while number > 0 {
        let state = number - 1;
        if classes[state] == class {
            return number;
        }
        number = links[state];
    }
    0
}
