//! The referee for the rules of the Boolean connectives.
#![tactic(auto)]

mod choice;
mod connectives;
mod find;
mod fit;
mod table;

ghost use Rattle.std.specs.Prelude.{IsTrue};
ghost use Rattle.referee.specs.Cases.{Worked};
ghost use Rattle.connectives.specs.Cases.{cases};
ghost use Rattle.connectives.specs.Examples.{examples};
ghost use Rattle.connectives.specs.Rules.{connectives as the_connectives};
ghost use Rattle.connectives.specs.Words.{Exact, Single};

pub use connectives::Connectives;

/// A step gets the ruling that it deserves, and deserves no other: each `ensures` is a theorem.
pub fn rulings_stand() -> bool
    ensures exact { Exact }
    ensures single { Single }
    ensures stands { IsTrue result }
{
    true
}

/// The worked cases get the rulings that they should, and a step of each rule gets a yes: each
/// `ensures` is a theorem.
pub fn cases_stand() -> bool
    ensures cases { Worked the_connectives cases }
    ensures examples { Worked the_connectives examples }
    ensures stands { IsTrue result }
{
    true
}
