//! From configurations to words.
//! One pass over the lists, in time linear in the word.

ghost use Rattle.std.specs.Prelude.{◌≡◌, ◌+◌, ◌^◌, ◌<◌, ◌++◌, All, IfOk, OnOk, IsTrue};
ghost use Rattle.protocol_model.specs.Patterns.{fits};
ghost use Rattle.protocol_model.specs.Words.{raised, word_of};

use protocol_model::{Configuration, System};
use std::alloc::{AllocError, Global};

/// The word of the configuration: its lists in the order of the sections, each letter raised by the number of letters
/// of the sections before, with one separator between neighbours.
pub fn encode(
    alloc: Global,
    system: &System,
    configuration: &Configuration,
) -> Result<Vec<u32>, AllocError>
    requires { IsTrue (fits system.now configuration.now) }
    ensures { IfOk result (λ word. word.items ≡ word_of system.now configuration.now) }
{
    let separator = system.separator();
    let lists = configuration.lists.as_slice();
    let mut word = Vec::new(alloc);
    let mut offset = 0;
    'sections: for (index, section) in system.sections.as_slice().iter().enumerate() {
        if index > 0 {
            word.push(separator)?;
        }
        push_raised(&mut word, lists[index].as_slice(), offset)?;
        offset += section.letter_count();
    }
    Ok(word)
}

/// Appends the letters of the list, each raised by the offset.
fn push_raised(word: &mut Vec<u32>, list: &[u32], offset: u32) -> Result<(), AllocError>
    requires { All (λ letter. letter + offset < 2 ^ 32) list.now }
    ensures { OnOk result (word.new.items ≡ word.old.items ++ raised offset list.now) }
{
    'letters: for letter in list {
        word.push(*letter + offset)?;
    }
    Ok(())
}
