//! Two referees as one.
ghost use Rattle.referee.specs.Meaning.{pair};
ghost use Rattle.referee.specs.Laws.{pairs_keep, pairs_modest};

use crate::question::Question;
use crate::referee::Referee;
use crate::ruling::Ruling;

/// A pair knows what either knows. The left one judges the names that it knows, the right one all
/// others.
#[derive(Clone, Copy)]
pub struct Pair<L, R> {
    pub left: L,
    pub right: R,
}

impl<L: Referee, R: Referee> Referee for Pair<L, R> {
    ghost meaning = { λ p. pair (L.Referee.meaning p.left) (R.Referee.meaning p.right) };

    ghost lawful = { λ x.
        pairs_keep (L.Referee.meaning x.left) (R.Referee.meaning x.right)
        (L.Referee.lawful x.left) (R.Referee.lawful x.right) };

    ghost modest = { λ x.
        pairs_modest (L.Referee.meaning x.left) (R.Referee.meaning x.right)
        (L.Referee.modest x.left) (R.Referee.modest x.right) };

    fn knows(&self, rule: &[u8]) -> bool {
        self.left.knows(rule) || self.right.knows(rule)
    }

    fn judge(&self, question: Question<'_>) -> Ruling {
        if self.left.knows(question.rule) {
            self.left.judge(question)
        } else {
            self.right.judge(question)
        }
    }
}
