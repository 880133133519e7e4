//! What terms mean: readings, values, and where literals and clauses are true.
#![tactic(auto)]

mod terms;
#[cfg(test)]
mod tests;

ghost use Rattle.std.specs.Prelude.{IsTrue};
ghost use Rattle.meaning.specs.Laws.{ValuesKept, BoolBits, TrueAtOne, ProperKept, NamesKept, ClausesWritten};

pub use terms::{Terms, term_at};

/// The laws of values, of proper lists and of clauses: each `ensures` is a theorem.
pub fn values_stand() -> bool
    ensures kept { ValuesKept }
    ensures bits { BoolBits }
    ensures truth { TrueAtOne }
    ensures proper { ProperKept }
    ensures names { NamesKept }
    ensures clauses { ClausesWritten }
    ensures stands { IsTrue result }
{
    true
}
