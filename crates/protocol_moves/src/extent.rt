//! Some positions of a list.
//! Of the positions only the first and the last are kept: that tells whether one of them lies before, or after, any position.

ghost use Rattle.std.specs.Prelude.{◌≡◌, ◌&&◌, min, not, nat_lt, if◌then◌else◌};

/// Some positions of a list, told by the first and the last of them. Where there are none, `first` is the length and `last` is 0.
#[derive(Clone, Copy)]
pub struct Extent {
    /// The first of the positions.
    pub first: usize,
    /// The last of them.
    pub last: usize,
}

impl Extent {
    /// The extent with the next position, where it is one of them.
    pub fn next(self, position: usize, is_one: bool) -> Extent
        ensures first { result.first ≡ (if is_one then min self.first position else self.first) }
        ensures last { result.last ≡ (if is_one then position else self.last) }
    {
        if is_one {
            Extent {
                first: self.first.min(position),
                last: position,
            }
        } else {
            self
        }
    }

    /// Whether none of the positions is before the one or after the other.
    pub fn is_within(self, from: usize, to: usize) -> bool
        ensures { result ≡ (not (nat_lt self.first from) && not (nat_lt to self.last)) }
    {
        !(self.first < from) & !(to < self.last)
    }
}
