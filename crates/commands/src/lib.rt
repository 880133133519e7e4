//! One command through the layers, and what it comes to.
#![tactic(auto)]

mod chatter;
mod fault;
mod form;
mod kind;
mod outcome;
mod part;

pub use chatter::is_chatter;
pub use fault::{Fault, Layer};
pub use form::Form;
pub use kind::Kind;
pub use outcome::{Command, Outcome, examine, outcome_of};
pub use part::Part;
