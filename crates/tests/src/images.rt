//! Images and preimages of words under a rule, compared with the words that the definition gives.
//! Each takes a few states.

use crate::moves::{HANDOFF, rules};
use image_preimage::{image, preimage};
use minimise::{Canon, canonical, same};
use std::alloc::{AllocError, Global};
use std::test::Fail;
use transducers::Transducer;
use word_automata::DfaBuilder;

/// Adds the states of the one word.
fn add_word(builder: &mut DfaBuilder, word: &[u32]) -> Result<(), Fail> {
    let mut last = builder.state(word.is_empty())?;
    'letters: for (i, letter) in word.iter().enumerate() {
        let next = builder.state(i + 1 == word.len())?;
        builder.edge(last, *letter, next)?;
        last = next;
    }
    Ok(())
}

/// The canonical automaton over four letters of the one word.
fn single(alloc: Global, word: &[u32]) -> Result<Box<Canon>, Fail> {
    let mut builder = DfaBuilder::new(alloc, 4);
    add_word(&mut builder, word)?;
    let written = Box::new(alloc, builder.finish())?;
    Ok(Box::new(alloc, canonical(alloc, &written)?)?)
}

/// Whether the transducer leads from the one word to the other alone, and back.
fn leads(alloc: Global, t: &Transducer, old: &Canon, new: &Canon) -> Result<bool, AllocError> {
    if t.letters() != old.as_dfa().letters() || t.letters() != new.as_dfa().letters() {
        return Ok(false);
    }
    let after = Box::new(alloc, image(alloc, t, old)?)?;
    let before = Box::new(alloc, preimage(alloc, t, new)?)?;
    Ok(same(&after, new) && same(&before, old))
}

/// Rules of the protocol with a cell and a channel, two words, and whether the rule leads from the one to the other alone, and back. One
/// rule writes a letter without reading one, and the other reads one without writing any.
const LED: [(usize, &[u32], &[u32], bool); 3] = [
    (0, &[0, 3, 2], &[1, 3, 2, 2], true),
    (1, &[1, 3, 2], &[0, 3], true),
    (1, &[1, 3], &[0, 3], false),
];

/// Whether the rule leads from the one word to the other alone, and back.
fn rule_leads(
    alloc: Global,
    rules: &[Transducer],
    rule: usize,
    before: &[u32],
    after: &[u32],
) -> Result<bool, Fail> {
    let Some(rule) = rules.get(rule) else {
        return Err("no rule".into());
    };
    let old = single(alloc, before)?;
    let new = single(alloc, after)?;
    Ok(leads(alloc, rule, &old, &new)?)
}

/// Whether each of the words is led or not as told.
fn led_as_told(alloc: Global, rules: &[Transducer]) -> Result<bool, Fail> {
    'led: for (rule, before, after, told) in &LED {
        if rule_leads(alloc, rules, *rule, before, after)? != *told {
            return Ok(false);
        }
    }
    Ok(true)
}

#[test]
fn words_are_led_there_and_back(rt: HostRuntime) -> Result<(), Fail> {
    let rules = rules(rt.alloc(), HANDOFF)?;
    assert!(rt; led_as_told(rt.alloc(), &rules)?);
    Ok(())
}
