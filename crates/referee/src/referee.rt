//! The trait of referees.
ghost use Rattle.std.specs.Prelude.{◌≡◌};
ghost use Rattle.referee.specs.Meaning.{Meaning, Lawful, Modest};
ghost use Rattle.referee.specs.Questions.{asked, Posed};

use crate::question::Question;
use crate::ruling::Ruling;

/// A referee: the judge of one proof step by its rule. What it means is a fixed value, the rule names
/// that it knows and a ruling on each question. Both calls answer by that value and change nothing.
pub trait Referee {
    ghost meaning: { Self → Meaning };

    fn knows(&self, rule: &[u8]) -> bool
        ensures { result ≡ (meaning self.now).knows rule.now };

    fn judge(&self, question: Question<'_>) -> Ruling
        requires { Posed (asked question) }
        ensures { result ≡ (meaning self.now).judge (asked question.entry) };

    ghost lawful: { (x : Self) → Lawful (meaning x) };

    ghost modest: { (x : Self) → Modest (meaning x) };
}
