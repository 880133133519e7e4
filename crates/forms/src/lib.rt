//! The form layer: the grammar of commands.
#![tactic(auto)]

mod depth;
mod fault;
mod form;
mod item;
mod layer;
mod problem;
mod proof;
mod takes;
mod terms;
#[cfg(test)]
mod tests;
mod word;

pub use fault::FormFault;
pub use form::{JustifiedBy, ProblemForm, ProofForm, Step};
pub use layer::{problem_form, proof_form};
pub use takes::{closing, next, open, same, symbol};
pub use word::Word;
