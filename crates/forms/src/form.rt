//! Parsed commands. They borrow their names from the command's text, and keep the places of what
//! a later layer reads again: terms, and lists by their opening bracket.
use crate::word::Word;

/// A command of the problem part.
#[derive(Clone, Copy)]
pub enum ProblemForm<'a> {
    SetLogic {
        logic: Word<'a>,
    },
    DeclareSort {
        sort: Word<'a>,
    },
    DeclareFun {
        function: Word<'a>,
        takes: usize,
        gives: Word<'a>,
    },
    Assert {
        term: usize,
    },
}

/// How a step is justified: `premises` and `args` are the places of the two lists, which may be
/// absent.
#[derive(Clone, Copy)]
pub struct JustifiedBy<'a> {
    pub rule: Word<'a>,
    pub premises: Option<usize>,
    pub args: Option<usize>,
}

/// A step: its name, the place of its clause, and its justification.
#[derive(Clone, Copy)]
pub struct Step<'a> {
    pub name: Word<'a>,
    pub clause: usize,
    pub reason: JustifiedBy<'a>,
}

/// A command of the proof part.
#[derive(Clone, Copy)]
pub enum ProofForm<'a> {
    Assume { name: Word<'a>, term: usize },
    Step(Step<'a>),
    Anchor { step: Word<'a> },
}
