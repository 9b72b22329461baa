//! Lists of letters that are compared letter by letter.
//! The first letter in which two lists differ orders them, and a list comes after its beginnings.

ghost use Rattle.std.specs.Prelude.{◌≡◌, nat_eq, Some, refl};
ghost use Rattle.std.specs.Ordering.{nat_cmp};
ghost use Rattle.std.specs.Cmp.{partial_equiv_from_equiv};
ghost use Rattle.std.specs.Cmp.Lexicographic.{pointwise, slice_cmp, nat_list_eq_equiv, nat_list_cmp_total, texts_ties, texts_po};

use std::cmp::Ordering;
use std::marker::Model;

/// A list of letters. Two are equal exactly where their letters are, and are ordered letter by letter.
#[derive(Drop)]
pub struct LetterList {
    letters: Vec<u32>,
}

impl Model for LetterList {
    ghost use Rattle.std.specs.Prelude.{List, ℕ};

    ghost Value = { List ℕ };

    ghost view = { λ list. list.letters.items };
}

impl LetterList {
    /// The list of these letters. It takes no memory.
    pub fn from_vec(letters: Vec<u32>) -> LetterList
        ensures { result ≡ letters.items }
    {
        LetterList { letters }
    }

    /// The letters, in their order.
    pub fn as_slice(&self) -> &[u32]
        ensures { result.now ≡ self.now }
    {
        self.letters.as_slice()
    }
}

impl PartialEq for LetterList {
    ghost eq = { λ a b. pointwise nat_eq a b };

    ghost laws = { partial_equiv_from_equiv nat_list_eq_equiv };

    fn eq(&self, other: &LetterList) -> bool {
        self.as_slice() == other.as_slice()
    }
}

impl Eq for LetterList {
    ghost laws = { nat_list_eq_equiv };
}

impl PartialOrd for LetterList {
    ghost partial_cmp = { λ a b. Some (slice_cmp nat_cmp a b) };

    ghost laws = { texts_po };

    fn partial_cmp(&self, other: &LetterList) -> Option<Ordering> {
        Some(self.cmp(other))
    }
}

impl Ord for LetterList {
    ghost cmp = { λ a b. slice_cmp nat_cmp a b };

    ghost total = { nat_list_cmp_total };

    ghost matches_partial_cmp = { λ a b. refl };

    ghost matches_eq = { texts_ties };

    fn cmp(&self, other: &LetterList) -> Ordering {
        self.as_slice().cmp(other.as_slice())
    }
}
