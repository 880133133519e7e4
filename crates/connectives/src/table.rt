//! The rows of the table of rules.

/// The connective of a rule's term T. `Any` is that of a rule that names none.
#[derive(Clone, Copy)]
pub enum Connective {
    Any,
    True,
    False,
    And,
    Or,
    Implies,
    Equiv,
}

/// What a letter of a rule stands for: T, the argument of T that a step picks, all of T's
/// arguments, the first of them or the second.
#[derive(Clone, Copy)]
pub enum Part {
    Whole,
    Picked,
    All,
    First,
    Second,
}

/// A letter of a rule, with its sign.
#[derive(Clone, Copy)]
pub struct Piece {
    pub negative: bool,
    pub part: Part,
}

/// A rule: its name, the connective of T, the one literal of its premise if it takes a premise, and
/// the literals of its clause.
#[derive(Clone, Copy)]
pub struct Rule {
    pub name: &'static [u8],
    pub connective: Connective,
    pub premise: Option<Piece>,
    pub clause: &'static [Piece],
}
