//! `eq_congruent`: equal arguments give equal terms.
ghost use Rattle.std.specs.Prelude.{◌≡◌};
ghost use Rattle.std.specs.List.{list_any, list_all};
ghost use Rattle.equality.specs.Rules.{pairs, negates, settled, congruent_at, congruent};

use crate::heads::{args_at, head_at, one_name};
use crate::sides::{Sides, equated};
use entries::{Literal, Term};

// The scans of this rule are loops, over the literals and over the two argument lists side by side.

/// Whether the literal is the negated equality of the pair.
fn is_negated(terms: &[Term], pair: Sides, literal: Literal) -> bool
    ensures { result ≡ negates terms.now pair literal }
{
    equated(terms, true, literal) == Some(pair)
}

/// Whether the pair's negated equality is in the clause.
fn has_negated(terms: &[Term], clause: &[Literal], pair: Sides) -> bool
    ensures { result ≡ list_any (negates terms.now pair) clause.now }
{
    for l in clause {
        if is_negated(terms, pair, *l) {
            return true;
        }
    }
    false
}

/// Whether the pair is one term, or its negated equality is in the clause.
fn is_settled(terms: &[Term], clause: &[Literal], pair: Sides) -> bool
    ensures { result ≡ settled terms.now clause.now pair }
{
    pair.left == pair.right || has_negated(terms, clause, pair)
}

/// Whether each pair of arguments is settled.
fn all_settled(terms: &[Term], clause: &[Literal], left: &[u16], right: &[u16]) -> bool
    ensures { result ≡ list_all (settled terms.now clause.now) (pairs left.now right.now) }
{
    for (s, t) in left.iter().zip(right) {
        let pair = Sides {
            left: *s,
            right: *t,
        };
        if !is_settled(terms, clause, pair) {
            return false;
        }
    }
    true
}

/// Whether the literal is some pair's negated equality.
fn is_of_pair(terms: &[Term], literal: Literal, left: &[u16], right: &[u16]) -> bool
    ensures { result ≡ list_any (λ p. negates terms.now p literal) (pairs left.now right.now) }
{
    for (s, t) in left.iter().zip(right) {
        let pair = Sides {
            left: *s,
            right: *t,
        };
        if is_negated(terms, pair, literal) {
            return true;
        }
    }
    false
}

/// Whether each literal is some pair's negated equality.
fn only_pairs(terms: &[Term], literals: &[Literal], left: &[u16], right: &[u16]) -> bool
    ensures { result ≡ list_all (λ l. list_any (λ p. negates terms.now p l) (pairs left.now right.now)) literals.now }
{
    for l in literals {
        if !is_of_pair(terms, *l, left, right) {
            return false;
        }
    }
    true
}

/// Whether the sides are two terms with one declared name, the pairs of their arguments are settled,
/// and they account for the literals before the last.
fn is_congruence(terms: &[Term], clause: &[Literal], before: &[Literal], whole: Sides) -> bool
    ensures { result ≡ congruent_at terms.now clause.now before.now whole }
{
    let left = args_at(terms, whole.left);
    let right = args_at(terms, whole.right);
    one_name(head_at(terms, whole.left), head_at(terms, whole.right))
        && left.len() == right.len()
        && all_settled(terms, clause, left, right)
        && only_pairs(terms, before, left, right)
}

/// Whether the clause's last literal equates two terms with one declared name, and the pairs of their
/// arguments account for the literals before it.
pub(crate) fn is_congruent(terms: &[Term], clause: &[Literal]) -> bool
    ensures { result ≡ congruent terms.now clause.now }
{
    let Some((last, before)) = clause.split_last() else {
        return false;
    };
    equated(terms, false, *last).is_some_and(|whole| is_congruence(terms, clause, before, whole))
}
