//! The referee for the rules of equality.
#![tactic(auto)]

mod cong;
mod congruent;
mod heads;
mod judge;
mod rule;
mod sides;
mod trans;
mod transitive;

ghost use Rattle.std.specs.Prelude.{IsTrue};
ghost use Rattle.meaning.specs.Proper.{Proper};
ghost use Rattle.referee.specs.Cases.{Worked};
ghost use Rattle.referee.specs.Samples.{names};
ghost use Rattle.equality.specs.Cases.{cases, terms};
ghost use Rattle.equality.specs.Meaning.{equality};
ghost use Rattle.equality.specs.Words.{RulesTested, YesToKept};

pub use judge::Equality;

/// The rules are what they say in words: each `ensures` is a theorem.
pub fn rules_stand() -> bool
    ensures tested { RulesTested }
    ensures kept { YesToKept }
    ensures stands { IsTrue result }
{
    true
}

/// Worked cases, and that the terms which they are about are proper.
pub fn cases_stand() -> bool
    ensures worked { Worked equality cases }
    ensures proper { Proper names terms }
    ensures stands { IsTrue result }
{
    true
}
