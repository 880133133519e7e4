//! What the parts of the search come to.
use entries::Literal;

/// What is left of a premise: its literals whose complement is not in the set.
// No `Option`, since none left and more than one left are told apart.
#[derive(Clone, Copy)]
pub(crate) enum Rest {
    Nothing,
    One(Literal),
    More,
}

/// What a pass over the premises comes to.
// No `Result`, since the search ends with two of the three.
#[derive(Clone, Copy)]
pub(crate) enum Outcome {
    /// A literal and its complement are derived, or a premise is empty.
    Conflict,
    /// The set has grown.
    Grew,
    /// No premise adds to the set.
    Still,
}
