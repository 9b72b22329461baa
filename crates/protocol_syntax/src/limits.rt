//! How many of each part a protocol may have.
//! The grammar reads these constants too.

/// The most sections.
pub const MAX_SECTIONS: usize = 16;

/// The most letters of all sections together.
pub const MAX_LETTERS: usize = 256;

/// The most rows of initial configurations, and of bad configurations.
pub const MAX_ROWS: usize = 32;

/// The most rules.
pub const MAX_RULES: usize = 256;

/// The most atoms of a pattern.
pub const MAX_ATOMS: usize = 32;

/// The most guards of a move.
pub const MAX_GUARDS: usize = 4;

/// The most letters that a move pushes.
pub const MAX_PUSHED: usize = 4;
