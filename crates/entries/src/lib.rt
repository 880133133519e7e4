//! What the lists hold: words, names, terms, literals, clauses; and the one search through them.
#![tactic(auto)]

mod blank;
mod clause;
mod entry;
mod few;
mod filing;
pub mod limits;
mod make;
mod search;
#[cfg(test)]
mod tests;

pub use blank::Blank;
pub use clause::Clause;
pub use entry::{Head, Literal, Name, Sort, Symbol, Term};
pub use few::Few;
pub use filing::intern;
pub use search::{Entry, position};
