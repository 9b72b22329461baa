//! What a round of refinement compares states by: the class, whether the state accepts, and the classes that letters lead to.
//! Signatures are hashed by a polynomial over their parts, in time linear in the edges.

ghost use Rattle.std.specs.Prelude.{◌≡◌, ◌↔◌, IsTrue};
ghost use Rattle.std.specs.Cmp.{partial_equiv_from_equiv};
ghost use Rattle.std.specs.Hash as fed;
ghost use Rattle.std.specs.Hash.{same_Alike};
ghost use Rattle.minimise.specs.Signatures.{same_signature, mixed, digest};
ghost use Rattle.minimise.specs.Refinement.{no_word};
ghost use Rattle.minimise.specs.SignatureLaws.{same_signature-decides, same_signature-equivalence};

use std::hash::{Hash, Hasher};
use std::marker::Model;

/// The class of a state, whether it accepts, and for each letter that leads to a class other than 0 that class, in increasing order
/// of the letters.
#[derive(Drop)]
pub struct Signature {
    class: usize,
    accepting: bool,
    edges: Vec<(u32, usize)>,
}

impl Model for Signature {
    ghost use Rattle.minimise.specs.Signatures.{Signature as Parts};

    ghost Value = { Parts };

    ghost view = { λ s. record { class = s.class; accepting = s.accepting; edges = s.edges.items } };
}

impl Signature {
    /// The signature of these parts. It takes no memory.
    pub fn new(class: usize, accepting: bool, edges: Vec<(u32, usize)>) -> Signature
        ensures { result ≡ record { class = class; accepting = accepting; edges = edges.items } }
    {
        Signature {
            class,
            accepting,
            edges,
        }
    }

    /// Whether it is the signature of a state from which no word is accepted.
    pub fn is_of_no_word(&self) -> bool
        ensures { IsTrue result ↔ (self.now ≡ no_word) }
    {
        self.class == 0 && !self.accepting && self.edges.is_empty()
    }

    /// A number that few other signatures have.
    fn digest(&self) -> u64
        ensures { result ≡ digest self.now }
    {
        let edges = self.edges.as_slice();
        let mut value = mixed(self.class as u64, if self.accepting { 1 } else { 0 });
        'edges: for &(letter, class) in edges {
            let with_letter = mixed(value, letter as u64);
            value = mixed(with_letter, class as u64);
        }
        value
    }
}

/// The value of a polynomial with one part more.
fn mixed(value: u64, part: u64) -> u64
    ensures { result ≡ mixed value part }
{
    value
        .wrapping_mul(11_400_714_819_323_198_485)
        .wrapping_add(part)
}

impl PartialEq for Signature {
    ghost eq = { same_signature };

    ghost laws = { partial_equiv_from_equiv same_signature-equivalence };

    fn eq(&self, other: &Signature) -> bool {
        self.class == other.class && self.accepting == other.accepting && self.edges == other.edges
    }
}

impl Eq for Signature {
    ghost laws = { same_signature-equivalence };
}

impl Hash for Signature {
    ghost hash_input = { λ s. fed.u64 (digest s) };

    ghost respects_eq = { (same_Alike (λ s. fed.u64 (digest s)) same_signature-decides).fed };

    fn hash<H: Hasher>(&self, state: &mut H) {
        self.digest().hash(state);
    }
}
