//! The referee of chains.
ghost use Rattle.std.specs.Prelude.{◌≡◌};
ghost use Rattle.chains.specs.Rule.{chains};
ghost use Rattle.chains.specs.Lawful.{chains_lawful, chains_modest};

use crate::search::Chain;
use referee::{Question, Referee, Ruling};

/// The referee of `resolution` and `th_resolution`.
#[derive(Clone, Copy)]
pub struct Chains;

impl Referee for Chains {
    ghost meaning = { λ _. chains };

    ghost lawful = { λ x. chains_lawful };

    ghost modest = { λ x. chains_modest };

    fn knows(&self, rule: &[u8]) -> bool {
        matches!(rule, b"resolution" | b"th_resolution")
    }

    fn judge(&self, question: Question<'_>) -> Ruling {
        if !self.knows(question.rule) {
            return Ruling::Unmet;
        }
        if question.args.len() > 0 {
            return Ruling::Arguments;
        }
        let chain = Chain {
            clause: question.clause,
            premises: question.premises,
        };
        if chain.follows() {
            Ruling::Yes
        } else {
            Ruling::Unmet
        }
    }
}
