//! The search for T and for the argument that a step picks.
ghost use Rattle.std.specs.Prelude.{◌≡◌, ◌<◌, true, length};
ghost use Rattle.std.specs.List.{All, list_any};
ghost use Rattle.referee.specs.Questions.{asked, Posed};
ghost use Rattle.connectives.specs.Rules.{meets_at, fits_as, meets};
ghost use Rattle.connectives.specs.Search.{seen, seat_of, shows};

use crate::choice::Choice;
use crate::table::Rule;
use entries::{Clause, Literal};
use referee::Question;

// Question and rule come apart, since the rule is looked up by its name.

/// Whether premises and clause are the rule's, with T the term `t` and φᵢ its argument `i`.
fn meets_at(question: Question<'_>, rule: Rule, t: u16, i: usize) -> bool
    requires { t < length question.terms.now }
    ensures { result ≡ meets_at (asked question.entry) (seen rule) t i }
{
    let choice = Choice::new(question.terms, t, i);
    choice.takes(rule.premise, question.premises) && choice.is_clause(rule.clause, question.clause)
}

/// Whether they are for `t` and some argument.
fn fits(question: Question<'_>, rule: Rule, t: u16) -> bool
    requires { t < length question.terms.now }
    ensures { result ≡ fits_as (asked question.entry) (seen rule) t }
{
    let first = Choice::new(question.terms, t, 0);
    first.connects(rule.connective)
        && (0..first.choices(rule.clause)).any(|i| meets_at(question, rule, t, i))
}

/// Where T is looked for: in the first premise, or in the clause where there is none.
fn seat<'a>(clause: &'a [Literal], premises: &'a [Clause]) -> &'a [Literal]
    ensures { result.now ≡ seat_of clause.now premises.now }
{
    match premises {
        [] => clause,
        [first, ..] => first.literals(),
    }
}

/// Whether they are for the term of one of the literals.
fn any_fits(question: Question<'_>, rule: Rule, literals: &[Literal]) -> bool
    requires { All (λ (l : Literal). l.term < length question.terms.now) literals.now }
    ensures { result ≡ list_any (λ (l : Literal). fits_as (asked question.entry) (seen rule) l.term) literals.now }
{
    literals.iter().any(|l| fits(question, rule, l.term))
}

/// Whether the step keeps the rule, for some T and some argument.
pub(crate) fn is_met(question: Question<'_>, rule: Rule) -> bool
    requires posed { Posed (asked question) }
    requires shown { shows (seen rule) ≡ true }
    ensures { result ≡ meets (asked question.entry) (seen rule) }
{
    let literals = seat(question.clause, question.premises);
    any_fits(question, rule, literals)
}
