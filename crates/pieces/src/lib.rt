//! Cutting a file into commands, and the lines and columns of its bytes.
#![tactic(auto)]

mod cutter;
mod even;
mod lines;
mod nest;
mod position;
#[cfg(test)]
mod tests;

pub use cutter::{Cutter, Piece};
pub use even::balances;
pub use lines::Lines;
pub use position::Position;
