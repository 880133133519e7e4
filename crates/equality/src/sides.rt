//! Equalities by their two sides.
ghost use Rattle.std.specs.Prelude.{◌≡◌};
ghost use Rattle.equality.specs.Rules.{reflexive};
ghost use Rattle.equality.specs.Sides.{two_of, equated as equated_sides, only_of, lone as lone_equality};

use crate::heads::{args_at, head_at, is_equal};
use entries::{Literal, Term};

/// The two sides of an equality, terms by their numbers.
#[derive(Clone, Copy, PartialEq, Eq)]
pub struct Sides {
    pub left: u16,
    pub right: u16,
}

/// Two numbers as sides.
fn two_of(args: &[u16]) -> Option<Sides>
    ensures { result ≡ two_of args.now }
{
    match args {
        [left, right] => Some(Sides {
            left: *left,
            right: *right,
        }),
        _ => None,
    }
}

/// The sides of the literal, if it has this sign and its term is an equality.
pub(crate) fn equated(terms: &[Term], negative: bool, literal: Literal) -> Option<Sides>
    ensures { result ≡ equated_sides terms.now negative literal }
{
    if literal.negative == negative && is_equal(head_at(terms, literal.term)) {
        two_of(args_at(terms, literal.term))
    } else {
        None
    }
}

/// The literal of a clause that, as a set, has one.
fn only_of(clause: &[Literal]) -> Option<Literal>
    ensures { result ≡ only_of clause.now }
{
    let first = clause.first()?;
    if clause.iter().all(|l| first == l) {
        Some(*first)
    } else {
        None
    }
}

// Terms and clause come apart, since a rule looks at the clauses of premises, too.

/// The sides of the equality that, as a set, is the clause.
pub(crate) fn lone(terms: &[Term], clause: &[Literal]) -> Option<Sides>
    ensures { result ≡ lone_equality terms.now clause.now }
{
    equated(terms, false, only_of(clause)?)
}

/// Whether the clause, as a set, is one equality of a term with itself.
pub(crate) fn is_reflexive(terms: &[Term], clause: &[Literal]) -> bool
    ensures { result ≡ reflexive terms.now clause.now }
{
    lone(terms, clause).is_some_and(|sides| sides.left == sides.right)
}
