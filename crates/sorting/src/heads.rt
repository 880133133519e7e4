//! Which arguments a head takes, and which sort it gives.
ghost use Rattle.std.specs.Prelude.{◌≡◌, ◌<◌, map, length};
ghost use Rattle.entries.specs.declared.entry.Head.TheVariants.{Declared};
ghost use Rattle.meaning.specs.Proper.{sort_at, is_numeral, is_factor, scales, well_formed};
ghost use Rattle.meaning.specs.Sorts.{takes_sorts, gives_sort};
ghost use Rattle.sorting.specs.Within.{Within};

use crate::args::Args;
use entries::{Head, Name, Sort};
use meaning::Terms;

/// Whether the declared name with the number `f` takes arguments of these sorts.
fn name_takes(names: &[Name], f: u16, args: &Args<'_>) -> bool
    ensures { result ≡ takes_sorts names.now (Declared f) args.now }
{
    matches!(names.get(f as usize), Some(name) if args.agree(name.takes()))
}

/// Whether `head` takes arguments of these sorts, and so many.
fn takes_sorts(names: &[Name], head: Head, args: &Args<'_>) -> bool
    ensures { result ≡ takes_sorts names.now head args.now }
{
    match head {
        Head::True | Head::False => args.exactly(0, Sort::Bool),
        Head::Not => args.exactly(1, Sort::Bool),
        Head::And | Head::Or => args.several(Sort::Bool),
        Head::Implies => args.exactly(2, Sort::Bool),
        Head::Equal => args.pair(),
        Head::Le | Head::Lt | Head::Ge | Head::Gt | Head::Times => args.exactly(2, Sort::Int),
        Head::Plus => args.several(Sort::Int),
        Head::Minus => args.exactly(1, Sort::Int) || args.exactly(2, Sort::Int),
        Head::Numeral(_) => args.exactly(0, Sort::Int),
        Head::Declared(f) => name_takes(names, f, args),
    }
}

/// Whether the term with the number `n` is a numeral.
fn is_numeral(terms: &Terms<'_>, n: u16) -> bool
    requires { n < length terms.now }
    ensures { result ≡ is_numeral terms.now n }
{
    matches!(terms.at(n).head, Head::Numeral(_))
}

/// Whether the term with the number `n` is a numeral or `-` of one numeral.
fn is_factor(terms: &Terms<'_>, n: u16) -> bool
    requires { n < length terms.now }
    ensures { result ≡ is_factor terms.now n }
{
    let term = terms.at(n);
    match (term.head, term.args()) {
        (Head::Numeral(_), _) => true,
        (Head::Minus, [m]) => is_numeral(terms, *m),
        _ => false,
    }
}

/// Whether `*` has a factor first, where the head is `*`.
fn is_scaled(terms: &Terms<'_>, head: Head, args: &[u16]) -> bool
    requires { Within terms.now args.now }
    ensures { result ≡ scales terms.now head args.now }
{
    match (head, args) {
        (Head::Times, [first, ..]) => is_factor(terms, *first),
        (Head::Times, []) => false,
        _ => true,
    }
}

/// Whether `head` and `args` make a term: counts and sorts fit, and `*` has a factor first.
pub fn well_formed(names: &[Name], terms: &Terms<'_>, head: Head, args: &[u16]) -> bool
    requires { Within terms.now args.now }
    ensures { result ≡ well_formed names.now terms.now head args.now }
{
    takes_sorts(names, head, &Args::new(terms, args)) && is_scaled(terms, head, args)
}

/// The sort of terms with the head `head`; a name that is not declared gives `Bool`.
pub fn gives_sort(names: &[Name], head: Head) -> Sort
    ensures { result ≡ gives_sort names.now head }
{
    match head {
        Head::Plus | Head::Minus | Head::Times | Head::Numeral(_) => Sort::Int,
        Head::Declared(f) => names.get(f as usize).map_or(Sort::Bool, |name| name.gives),
        _ => Sort::Bool,
    }
}
