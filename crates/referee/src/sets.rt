//! Clauses as sets of literals.
ghost use Rattle.std.specs.Prelude.{◌≡◌};
ghost use Rattle.entries.specs.Clauses.{holds_literal};

use entries::Literal;

/// Whether `literal` is one of the clause's.
pub fn has(clause: &[Literal], literal: Literal) -> bool
    ensures { result ≡ holds_literal clause.now literal }
{
    // No `contains`, which compares in groups and goes on behind a hit; and numbers first, which tell
    // most literals apart.
    clause.iter().any(|l| l.term == literal.term && l.negative == literal.negative)
}
