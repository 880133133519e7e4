//! The limits of the lists and of their entries. A list holds at most so many entries, and no more
//! than its memory has places.

/// Declared sorts.
pub const MOST_SORTS: usize = 32;

/// Declared names.
pub const MOST_NAMES: usize = 512;

/// Claims.
pub const MOST_CLAIMS: usize = 256;

/// Terms.
pub const MOST_TERMS: usize = 4096;

/// Commands of a proof.
pub const MOST_COMMANDS: usize = 4096;

/// Arguments of a term, sorts that a name takes.
pub const MOST_ARGUMENTS: usize = 64;

/// Literals of a clause.
pub const MOST_LITERALS: usize = 64;

/// Bytes of a word.
pub const LONGEST: usize = 64;
