//! The referee of `resolution` and `th_resolution`: what follows from clauses by a chain.
#![tactic(auto)]

mod judge;
mod known;
mod outcome;
mod search;

ghost use Rattle.std.specs.Prelude.{IsTrue};
ghost use Rattle.chains.specs.Cases.{cases};
ghost use Rattle.chains.specs.Laws.{ChainLaw, ClosureIsLeast, ChainsDecided};
ghost use Rattle.chains.specs.Rule.{chains, RulingsInWords};
ghost use Rattle.referee.specs.Cases.{Worked};

pub use judge::Chains;

/// What chains are worth, and the rulings in words: each `ensures` is a theorem.
pub fn chains_stand() -> bool
    ensures law { ChainLaw }
    ensures least { ClosureIsLeast }
    ensures decided { ChainsDecided }
    ensures words { RulingsInWords }
    ensures stands { IsTrue result }
{
    true
}

/// Cases that are worked by the definitions alone.
pub fn cases_stand() -> bool
    ensures cases { Worked chains cases }
    ensures stands { IsTrue result }
{
    true
}
