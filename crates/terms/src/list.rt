//! The list of terms that a command is read into.
ghost use Rattle.std.specs.Prelude.{◌≤◌, length};
ghost use Rattle.std.proofs.Props.{props};
ghost use Rattle.terms.specs.State.{Ready};

use entries::{Name, Term};

/// A list of terms under declared names: its memory, and how many places of it are in use.
#[derive(Drop)]
pub struct TermList<'a> {
    pub names: &'a [Name],
    pub terms: &'a mut [Term],
    pub count: &'a mut usize,
    ghost few_names: { length names.now ≤ 512 },
    ghost ready: { Ready names.now terms.now count.now } by { Prim.hlevel props },
}
