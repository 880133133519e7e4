//! The search for a literal and its complement: a set of literals that grows until no premise adds
//! to it.
ghost use Rattle.std.specs.Prelude.{◌≡◌, false, replicate, Decides, MatchOption};
ghost use Rattle.std.specs.List.{AllByRecursion};
ghost use Rattle.std.proofs.Props.{props};
ghost use Rattle.chains.specs.Sets.{Placed, Left};

use crate::known::Known;
use crate::outcome::{Outcome, Rest};
use entries::{Clause, Literal};

/// What is left of a premise under a set.
fn look(premise: &[Literal], known: &Known) -> Rest
    ensures { Left premise.now known.now result }
{
    match premise.iter().position(|l| !known.has(l.complement())) {
        None => Rest::Nothing,
        Some(at) => {
            let one = premise[at];
            if premise[at + 1..]
                .iter()
                .all(|l| known.has(l.complement()) || *l == one)
            {
                Rest::One(one)
            } else {
                Rest::More
            }
        }
    }
}

/// A clause, and the premises from which it may follow by a chain.
#[derive(Clone, Copy)]
pub(crate) struct Chain<'a> {
    pub(crate) clause: &'a [Literal],
    pub(crate) premises: &'a [Clause],
    ghost clause_placed: { Placed clause.now } by { Prim.hlevel props },
    ghost premises_placed: { AllByRecursion Placed premises.now } by { Prim.hlevel props },
}

impl<'a> Chain<'a> {
    ghost use Rattle.chains.specs.Chain.{Refutes};
    ghost use Rattle.std.proofs.Props.{props};
    ghost use Rattle.chains.specs.Sets.{Clash, Seeds, Passed};

    /// Puts the complements of the clause's literals into the empty set; none, where two of these
    /// are complements.
    fn seed(&self, known: &mut Known) -> Option<()>
        requires { known.old ≡ replicate 8192 false }
        ensures { MatchOption result (Clash self.now.clause.now) (λ _. Seeds self.now.clause.now known.new) }
    {
        // A loop, since each literal is looked up in what those before it gave.
        for literal in self.clause {
            if known.has(*literal) {
                return None;
            }
            let denied = literal.complement();
            known.add(denied);
        }
        Some(())
    }

    /// Looks at each premise once, and adds what it forces to the set. A chain names its premises in
    /// the order in which they are resolved, so what the last ones force helps the ones before them.
    fn pass(&self, known: &mut Known) -> Outcome
        ensures { Passed self.now.premises.now known.old known.new result }
    {
        let mut grew = false;
        // A loop, since each premise is looked at under what those behind it gave.
        for premise in self.premises.iter().rev() {
            match look(premise.literals(), known) {
                Rest::Nothing => return Outcome::Conflict,
                Rest::One(literal) => {
                    if !known.has(literal) {
                        known.add(literal);
                        grew = true;
                    }
                }
                Rest::More => {}
            }
        }
        if grew { Outcome::Grew } else { Outcome::Still }
    }

    /// Whether the clause follows from the premises by a chain.
    pub(crate) fn follows(&self) -> bool
        ensures { Decides result (Refutes self.now.clause.now self.now.premises.now) }
    {
        let mut known = Known::empty();
        if self.seed(&mut known).is_none() {
            return true;
        }
        loop {
            match self.pass(&mut known) {
                Outcome::Conflict => return true,
                Outcome::Still => return false,
                Outcome::Grew => {}
            }
        }
    }
}
