//! Sets of literals.
ghost use Rattle.std.specs.Prelude.{◌≡◌, ◌<◌, true, false, length, replicate, slice_set};
ghost use Rattle.chains.specs.Sets.{place_of, holds};

use entries::Literal;
use entries::limits::MOST_TERMS;
use std::marker::Model;

/// The places of a set: two for each term.
const PLACES: usize = 2 * MOST_TERMS;

/// A set of literals: an answer for each sign of each term.
#[derive(Drop)]
pub(crate) struct Known {
    answers: [bool; PLACES],
}

impl Model for Known {
    ghost use Rattle.std.specs.Prelude.{◌≡◌, List, Bool, length};

    ghost Value = { List Bool };

    ghost view = { λ k. k.answers };

    ghost invariant = { λ k. length k.answers ≡ 8192 };
}

/// The place of a literal in a set.
fn place(literal: Literal) -> usize
    ensures { result ≡ place_of literal }
{
    if literal.negative {
        literal.term as usize * 2 + 1
    } else {
        literal.term as usize * 2
    }
}

impl Known {
    /// The empty set.
    pub(crate) fn empty() -> Known
        ensures { result ≡ replicate 8192 false }
    {
        Known {
            answers: [false; PLACES],
        }
    }

    /// Whether the literal is in the set; one without a place is not.
    pub(crate) fn has(&self, literal: Literal) -> bool
        ensures { result ≡ holds self.now literal }
    {
        self.answers.get(place(literal)) == Some(&true)
    }

    /// Puts the literal into the set.
    pub(crate) fn add(&mut self, literal: Literal)
        requires { literal.term < 4096 }
        ensures one_more { self.new ≡ slice_set self.old (place_of literal) true }
        ensures within { place_of literal < length self.old }
    {
        self.answers[place(literal)] = true;
    }
}
