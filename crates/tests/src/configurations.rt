//! The words of configurations of a system with a cell and a channel: a word is decoded, and what it means is encoded to it again, and one
//! without the letter between sections is decoded to nothing. Each has a few letters.

use crate::moves::{HANDOFF, system};
use configuration_words::{decode, encode};
use protocol_model::System;
use protocol_steps::fits;
use std::alloc::Global;
use std::test::Fail;

/// The word of the configuration of this word.
fn encoded_again(alloc: Global, system: &System, word: &[u32]) -> Result<Vec<u32>, Fail> {
    let Some(c) = decode(alloc, system, word)? else {
        return Err("no configuration".into());
    };
    if !fits(system, &c) {
        return Err("does not fit".into());
    }
    Ok(encode(alloc, system, &c)?)
}

/// Whether the word is that of a configuration.
fn is_decoded(alloc: Global, system: &System, word: &[u32]) -> Result<bool, Fail> {
    Ok(decode(alloc, system, word)?.is_some())
}

#[test]
fn words_are_encoded_again(rt: HostRuntime) -> Result<(), Fail> {
    let system = system(rt.alloc(), HANDOFF)?;
    let word = encoded_again(rt.alloc(), &system, &[1, 3, 2, 2])?;
    assert!(rt; word.as_slice() == [1, 3, 2, 2].as_slice());
    Ok(())
}

#[test]
fn words_of_no_configuration(rt: HostRuntime) -> Result<(), Fail> {
    let system = system(rt.alloc(), HANDOFF)?;
    assert!(rt; is_decoded(rt.alloc(), &system, &[0, 3, 2])?);
    assert!(rt; !is_decoded(rt.alloc(), &system, &[0, 2])?);
    Ok(())
}
