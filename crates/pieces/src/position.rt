//! Positions: places with their lines and columns.
ghost use Rattle.std.specs.Prelude.{◌≡◌, ℕ, List};
ghost use Rattle.pieces.specs.Positions.{position_of};

/// A place of a text, and its line and column as people count them: lines from 1, and bytes of the
/// line from 1.
#[derive(Clone, Copy, Debug, PartialEq)]
pub struct Position {
    pub at: usize,
    pub line: usize,
    pub column: usize,
}

impl Position {
    /// Where every text begins.
    pub fn start() -> Position
        ensures first { result.at ≡ 0 }
        ensures placed { (text : List ℕ) → result ≡ position_of text result.at }
    {
        Position {
            at: 0,
            line: 1,
            column: 1,
        }
    }
}
