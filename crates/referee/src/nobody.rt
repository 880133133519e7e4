//! The referee that knows no rule.
ghost use Rattle.referee.specs.Meaning.{nothing};
ghost use Rattle.referee.specs.Laws.{nothing_keeps};
ghost use Rattle.std.proofs.Common.{refl};

use crate::question::Question;
use crate::referee::Referee;
use crate::ruling::Ruling;

/// A referee that knows nothing: it never says yes.
#[derive(Clone, Copy)]
pub struct Nobody;

impl Referee for Nobody {
    ghost meaning = { λ _. nothing };

    ghost lawful = { λ _. nothing_keeps };

    ghost modest = { λ _ q unknown. refl };

    fn knows(&self, _rule: &[u8]) -> bool {
        false
    }

    fn judge(&self, _question: Question<'_>) -> Ruling {
        Ruling::Unmet
    }
}
