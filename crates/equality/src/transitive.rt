//! `eq_transitive`: a chain of negated equalities, and last the equality of its ends.
ghost use Rattle.std.specs.Prelude.{◌≡◌};
ghost use Rattle.equality.specs.Rules.{leads as leads_on, transitive};

use crate::sides::equated;
use entries::{Literal, Term};

/// Whether the literals, in their order, are negated equalities that lead from the term `from` to the
/// term `to`.
fn leads(terms: &[Term], from: u16, links: &[Literal], to: u16) -> bool
    ensures { result ≡ leads_on terms.now from links.now to }
{
    let mut at = from;
    // A loop, since each link begins where the one before it ends.
    for link in links {
        match equated(terms, true, *link) {
            Some(sides) if sides.left == at => at = sides.right,
            _ => return false,
        }
    }
    at == to
}

/// Whether one negated equality or more lead from one side of the clause's last literal to the other.
pub(crate) fn is_transitive(terms: &[Term], clause: &[Literal]) -> bool
    ensures { result ≡ transitive terms.now clause.now }
{
    let Some((last, links)) = clause.split_last() else {
        return false;
    };
    equated(terms, false, *last).is_some_and(|ends| links.len() > 0
        && leads(terms, ends.left, links, ends.right))
}
