//! Literals and clauses.
ghost use Rattle.std.specs.Prelude.{◌≡◌, ◌<◌, ◌≤◌, [], length};
ghost use Rattle.entries.specs.Clauses.{complement_of, with as with_one};

use crate::entry::Literal;
use crate::few::Few;
use crate::limits::MOST_LITERALS;
use std::marker::Model;

impl Literal {
    /// The literal of the same term with the other sign.
    pub fn complement(self) -> Literal
        ensures { result ≡ complement_of self }
    {
        Literal {
            negative: !self.negative,
            term: self.term,
        }
    }
}

/// A clause: literals in written order, later repeats dropped.
#[derive(Clone, Copy)]
pub struct Clause {
    literals: Few<Literal, MOST_LITERALS>,
}

impl Model for Clause {
    ghost use Rattle.std.specs.Prelude.{List};
    ghost use Rattle.entries.specs.declared.entry.Literal.{Literal as OneLiteral};

    ghost Value = { List OneLiteral };

    ghost view = { λ c. c.literals };

    ghost inverse = { λ ls. record { literals = ls } };
}

impl Clause {
    /// The empty clause.
    pub fn new() -> Clause
        ensures { result ≡ [] }
    {
        Clause {
            literals: Few::empty(),
        }
    }

    /// The literals.
    pub fn literals(&self) -> &[Literal]
        ensures literals { result.now ≡ self.now }
        ensures few { length self.now ≤ 64 }
    {
        self.literals.as_slice()
    }

    /// Adds a literal at the end, unless it is there.
    pub fn push(&mut self, literal: Literal)
        requires { length self.old < 64 }
        ensures { self.new ≡ with_one self.old literal }
    {
        // No `contains`, which compares in groups and goes on behind a hit; and numbers first, which
        // tell most literals apart.
        let there = self.literals().iter().any(|l| l.term == literal.term
            && l.negative == literal.negative);
        if !there {
            self.literals.push(literal);
        }
    }
}
