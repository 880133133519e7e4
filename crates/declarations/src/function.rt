//! A parsed declaration of a function.
use forms::Word;

/// What `(declare-fun name (S ..) S)` shows: `takes` is the place of the bracket that opens the
/// list of its argument sorts.
#[derive(Clone, Copy)]
pub struct Function<'a> {
    pub name: Word<'a>,
    pub takes: usize,
    pub gives: Word<'a>,
}
