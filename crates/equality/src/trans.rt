//! `trans`: two equalities joined at a common side.
ghost use Rattle.std.specs.Prelude.{◌≡◌};
ghost use Rattle.equality.specs.Rules.{through, joins, joined};

use crate::sides::{Sides, lone};
use entries::{Clause, Literal, Term};

/// Whether the two clauses, as sets, are r = s and s = t, where `whole` is r = t.
fn leads_through(terms: &[Term], first: &[Literal], second: &[Literal], whole: Sides) -> bool
    ensures { result ≡ through terms.now first.now second.now whole }
{
    lone(terms, first).is_some_and(|half| {
        let rest = Sides {
            left: half.right,
            right: whole.right,
        };
        half.left == whole.left && lone(terms, second) == Some(rest)
    })
}

/// Whether there are two premises, and they lead from one side to the other.
fn is_joining(terms: &[Term], premises: &[Clause], whole: Sides) -> bool
    ensures { result ≡ joins terms.now premises.now whole }
{
    match premises {
        [first, second] => leads_through(terms, first.literals(), second.literals(), whole),
        _ => false,
    }
}

/// Whether the clause, as a set, is an equality that the premises join.
pub(crate) fn is_joined(terms: &[Term], clause: &[Literal], premises: &[Clause]) -> bool
    ensures { result ≡ joined terms.now clause.now premises.now }
{
    lone(terms, clause).is_some_and(|whole| is_joining(terms, premises, whole))
}
