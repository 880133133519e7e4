//! The words that are known, and the two declarations.
#![tactic(auto)]

mod declare;
mod fault;
mod function;
mod known;
mod signature;
#[cfg(test)]
mod tests;
mod words;

pub use declare::{declare_fun, declare_sort};
pub use fault::TermFault;
pub use function::Function;
pub use known::{name_named, sort_named};
pub use words::{is_reserved, operator};
