//! What judges one step of a proof by its rule: questions, rulings, referees, and pairs of them.
#![tactic(auto)]

mod names;
mod nobody;
mod pair;
mod question;
mod referee;
mod ruling;
mod sets;

ghost use Rattle.std.specs.Prelude.{IsTrue};
ghost use Rattle.meaning.specs.Proper.{Proper};
ghost use Rattle.referee.specs.Meaning.{PairsKeep};
ghost use Rattle.referee.specs.Samples as sample;

pub use names::same_name;
pub use nobody::Nobody;
pub use pair::Pair;
pub use question::Question;
pub use referee::Referee;
pub use ruling::Ruling;
pub use sets::has;

/// Pairs of referees that keep the law keep it, and the terms that worked cases are about are
/// proper: each `ensures` is a theorem.
pub fn pairs_stand() -> bool
    ensures keep { PairsKeep }
    ensures samples { Proper sample.names sample.terms }
    ensures stands { IsTrue result }
{
    true
}
