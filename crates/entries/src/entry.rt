//! What the lists hold.
use crate::few::Few;
use crate::limits::{LONGEST, MOST_ARGUMENTS};

/// A sort: `Bool`, `Int`, or a declared one by its number.
#[derive(Clone, Copy, Debug, PartialEq, Eq)]
pub enum Sort {
    Bool,
    Int,
    Declared(u8),
}

/// What a term begins with: an operator, a numeral, or a declared name by its number.
#[derive(Clone, Copy, Debug, PartialEq, Eq)]
pub enum Head {
    True,
    False,
    Not,
    And,
    Or,
    Implies,
    Equal,
    Le,
    Lt,
    Ge,
    Gt,
    Plus,
    Minus,
    Times,
    Numeral(u32),
    Declared(u16),
}

/// A stored word.
pub type Symbol = Few<u8, LONGEST>;

/// A declared function symbol: its word, the sorts that it takes and the sort that it gives.
#[derive(Clone, Copy)]
pub struct Name {
    pub word: Symbol,
    pub takes: Few<Sort, MOST_ARGUMENTS>,
    pub gives: Sort,
}

/// A term: its head, its sort, and its arguments by their numbers.
#[derive(Clone, Copy, PartialEq, Eq)]
pub struct Term {
    pub head: Head,
    pub sort: Sort,
    pub args: Few<u16, MOST_ARGUMENTS>,
}

/// A literal: a term without its leading `not`s, and a sign, negative if their number was odd.
#[derive(Clone, Copy, Debug, PartialEq, Eq)]
pub struct Literal {
    pub negative: bool,
    pub term: u16,
}
