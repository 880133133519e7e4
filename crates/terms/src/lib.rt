//! The term layer: reading terms from text into the list.
#![tactic(auto)]

mod claim;
mod guard;
mod list;
mod place;
mod read;

pub use claim::read_claim;
pub use guard::Provisional;
pub use read::read_term;
