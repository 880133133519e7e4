//! The referees put together.
#![tactic(auto)]

ghost use Rattle.std.specs.Prelude.{◌≡◌};
ghost use Rattle.referee.specs.Cases.{Worked};
ghost use Rattle.referee.specs.Meaning.{Lawful, pair};
ghost use Rattle.chains.specs.contracts.judge.ChainsReferee.TheImpl.{ghosts as of_chains};
ghost use Rattle.connectives.specs.contracts.connectives.ConnectivesReferee.TheImpl.{ghosts as of_connectives};
ghost use Rattle.equality.specs.contracts.judge.EqualityReferee.TheImpl.{ghosts as of_equality};
ghost use Rattle.checker.specs.Referees.{the_referees, cases};

use chains::Chains;
use connectives::Connectives;
use equality::Equality;
use referee::Pair;

/// The checker's referee: the rules of the connectives, of equality, and chains, asked in this order.
/// It keeps the law, and every worked case gets its ruling.
pub fn referees() -> Pair<Connectives, Pair<Equality, Chains>>
    ensures meaning { pair (of_connectives.meaning result.left) (pair (of_equality.meaning result.right.left) (of_chains.meaning result.right.right)) ≡ the_referees }
    ensures law { Lawful the_referees }
    ensures worked { Worked the_referees cases }
{
    let right = Pair {
        left: Equality,
        right: Chains,
    };
    Pair {
        left: Connectives,
        right,
    }
}
