//! Which abstraction a search begins with: by predicates or by words of bounded length that states accept (Bouajjani, Habermehl and Vojnar,
//! CAV 2004), or by such words that lead into them. It is a plain value, which is copied.

/// Which abstraction a search begins with.
#[derive(Clone, Copy, Drop)]
pub enum FirstAbstraction {
    /// By the predicates of the automaton of the words that the rounds lead to: of the bad ones, and backward of the initial ones.
    TargetPredicates,
    /// By predicates, of which there is none at first.
    NoPredicates,
    /// By the words of at most `bound` letters that states accept.
    Lengths {
        /// The bound on the number of letters.
        bound: u64,
    },
    /// By the words of at most `bound` letters that lead into states.
    Pasts {
        /// The bound on the number of letters.
        bound: u64,
    },
}
