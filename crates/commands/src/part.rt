//! The two parts of the work.

/// A problem, and the proof that no value meets its claims.
#[derive(Clone, Copy, Debug, PartialEq)]
pub enum Part {
    Problem,
    Proof,
}
