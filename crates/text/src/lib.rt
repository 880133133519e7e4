//! The token layer: from the bytes of a command to its tokens.
#![tactic(auto)]

mod bytes;
mod reader;
mod spans;
#[cfg(test)]
mod tests;
mod token;

pub use bytes::{Kind, kind_of};
pub use reader::{Reader, scan};
pub use spans::{Class, run_end, skip};
pub use token::{Token, TokenFault};
