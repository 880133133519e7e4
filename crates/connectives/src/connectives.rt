//! The referee of the connectives.
ghost use Rattle.connectives.specs.Rules.{connectives};
ghost use Rattle.connectives.specs.Valid.{connectives_lawful, connectives_modest};

use crate::find::find;
use crate::fit::is_met;
use referee::{Question, Referee, Ruling};

/// The referee for the rules of the Boolean connectives.
#[derive(Clone, Copy)]
pub struct Connectives;

impl Referee for Connectives {
    ghost meaning = { λ _. connectives };

    ghost lawful = { λ x. connectives_lawful };

    ghost modest = { λ x. connectives_modest };

    fn knows(&self, rule: &[u8]) -> bool {
        find(rule).is_some()
    }

    fn judge(&self, question: Question<'_>) -> Ruling {
        let Some(rule) = find(question.rule) else {
            return Ruling::Unmet;
        };
        if question.args.len() > 0 {
            return Ruling::Arguments;
        }
        if is_met(question, rule) {
            Ruling::Yes
        } else {
            Ruling::Unmet
        }
    }
}
