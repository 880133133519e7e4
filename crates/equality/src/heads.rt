//! What a term begins with, and its arguments.
ghost use Rattle.std.specs.Prelude.{◌≡◌};
ghost use Rattle.entries.specs.declared.entry.Head.TheVariants as head;
ghost use Rattle.entries.specs.Equality.{same_kind};
ghost use Rattle.meaning.specs.Proper.{term_at};
ghost use Rattle.equality.specs.Heads.{one_name, one_operation};

use entries::{Head, Term};

/// The head of the term with the number `n`; `true` where there is none.
pub(crate) fn head_at(terms: &[Term], n: u16) -> Head
    ensures { result ≡ (term_at terms.now n).head }
{
    terms.get(n as usize).map_or(Head::True, |term| term.head)
}

/// The arguments of the term with the number `n`; none where there is no such term.
pub(crate) fn args_at(terms: &[Term], n: u16) -> &[u16]
    ensures { result.now ≡ (term_at terms.now n).args }
{
    terms.get(n as usize).map_or(&[], |term| term.args())
}

/// Whether a term with this head is an equality.
pub(crate) fn is_equal(op: Head) -> bool
    ensures { result ≡ same_kind op head.Equal }
{
    matches!(op, Head::Equal)
}

/// Whether both heads are one declared name.
pub(crate) fn one_name(a: Head, b: Head) -> bool
    ensures { result ≡ one_name a b }
{
    matches!(a, Head::Declared(_)) && a == b
}

/// Whether both heads are one declared name or one operator: no numeral, not `true` and not `false`.
pub(crate) fn one_operation(a: Head, b: Head) -> bool
    ensures { result ≡ one_operation a b }
{
    !matches!(a, Head::True | Head::False | Head::Numeral(_)) && a == b
}
