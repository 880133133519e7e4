//! `cong`: terms with one head and equal arguments are equal.
ghost use Rattle.std.specs.Prelude.{◌≡◌, is_some};
ghost use Rattle.std.specs.List.{list_all};
ghost use Rattle.equality.specs.Rules.{pairs, granted as granted_pair, applied as applied_terms};
ghost use Rattle.equality.specs.Sides.{lone as lone_equality};

use crate::heads::{args_at, head_at, one_operation};
use crate::sides::{Sides, lone};
use entries::{Clause, Literal, Term};

/// Whether the pair is one term, or a premise's equality.
fn is_granted(terms: &[Term], premises: &[Clause], pair: Sides) -> bool
    ensures { result ≡ granted_pair terms.now premises.now pair }
{
    pair.left == pair.right
        || premises
            .iter()
            .any(|premise| lone(terms, premise.literals()) == Some(pair))
}

/// Whether each pair of arguments is granted.
fn all_granted(terms: &[Term], premises: &[Clause], left: &[u16], right: &[u16]) -> bool
    ensures { result ≡ list_all (granted_pair terms.now premises.now) (pairs left.now right.now) }
{
    left.iter().zip(right).all(|(s, t)| {
        let pair = Sides {
            left: *s,
            right: *t,
        };
        is_granted(terms, premises, pair)
    })
}

/// Whether each premise, as a set, is one equality.
fn all_equalities(terms: &[Term], premises: &[Clause]) -> bool
    ensures { result ≡ list_all (λ c. is_some (lone_equality terms.now c)) premises.now }
{
    premises
        .iter()
        .all(|premise| lone(terms, premise.literals()).is_some())
}

/// Whether the clause, as a set, is an equality of two terms with one declared name or operator, whose
/// arguments the premises equate.
pub(crate) fn is_applied(terms: &[Term], clause: &[Literal], premises: &[Clause]) -> bool
    ensures { result ≡ applied_terms terms.now clause.now premises.now }
{
    lone(terms, clause).is_some_and(|whole| {
        let left = args_at(terms, whole.left);
        let right = args_at(terms, whole.right);
        one_operation(head_at(terms, whole.left), head_at(terms, whole.right))
            && left.len() == right.len()
            && all_granted(terms, premises, left, right)
            && all_equalities(terms, premises)
    })
}
