//! Which heads take which arguments: the counts and sorts of terms.
#![tactic(auto)]

mod args;
mod heads;

pub use heads::{gives_sort, well_formed};
