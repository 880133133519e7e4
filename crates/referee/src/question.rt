//! What a referee is asked.
use entries::{Clause, Literal};
use meaning::Terms;

/// A step that is to be judged: the terms of the sheet, the name of its rule, its clause, the
/// clauses of its premises in their order, and its arguments.
#[derive(Clone, Copy)]
pub struct Question<'a> {
    pub terms: &'a Terms<'a>,
    pub rule: &'a [u8],
    pub clause: &'a [Literal],
    pub premises: &'a [Clause],
    pub args: &'a [i64],
}
