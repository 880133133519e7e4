//! The referee for the rules of equality.
ghost use Rattle.std.specs.Prelude.{◌≡◌};
ghost use Rattle.referee.specs.Questions.{asked};
ghost use Rattle.equality.specs.Meaning.{meets_rule, ruled_by, equality};
ghost use Rattle.equality.specs.Lawful.{equality_lawful, equality_modest};

use crate::cong::is_applied;
use crate::congruent::is_congruent;
use crate::rule::{Rule, rule_named};
use crate::sides::is_reflexive;
use crate::trans::is_joined;
use crate::transitive::is_transitive;
use referee::{Question, Referee, Ruling};

/// Whether the step meets the rule, its arguments aside.
fn meets(rule: Rule, question: Question<'_>) -> bool
    ensures { result ≡ meets_rule rule (asked question.entry) }
{
    let Question {
        terms,
        clause,
        premises,
        ..
    } = question;
    let terms = terms.as_slice();
    // A match, since the rules are closed.
    match rule {
        Rule::Reflexive => premises.is_empty() && is_reflexive(terms, clause),
        Rule::Transitive => premises.is_empty() && is_transitive(terms, clause),
        Rule::Congruent => premises.is_empty() && is_congruent(terms, clause),
        Rule::Trans => is_joined(terms, clause, premises),
        Rule::Cong => is_applied(terms, clause, premises),
    }
}

/// The ruling on a step with a known rule.
fn ruling(rule: Rule, question: Question<'_>) -> Ruling
    ensures { result ≡ ruled_by rule (asked question.entry) }
{
    if question.args.len() > 0 {
        Ruling::Arguments
    } else if meets(rule, question) {
        Ruling::Yes
    } else {
        Ruling::Unmet
    }
}

/// The referee for the rules of equality: `eq_reflexive`, `refl`, `eq_transitive`, `eq_congruent`,
/// `trans` and `cong`.
#[derive(Clone, Copy)]
pub struct Equality;

impl Referee for Equality {
    ghost meaning = { λ _. equality };

    ghost lawful = { λ x. equality_lawful };

    ghost modest = { λ x. equality_modest };

    fn knows(&self, rule: &[u8]) -> bool {
        rule_named(rule).is_some()
    }

    fn judge(&self, question: Question<'_>) -> Ruling {
        let Some(rule) = rule_named(question.rule) else {
            return Ruling::Unmet;
        };
        ruling(rule, question)
    }
}
