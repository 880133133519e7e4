//! The lines and columns of one text, counted on from the last place that was asked for.
ghost use Rattle.std.specs.Prelude.{◌≡◌, ◌≤◌};
ghost use Rattle.pieces.specs.Positions.{position_of};

use crate::position::Position;

/// Counts the lines and columns of a text: `last` is one of its positions.
#[derive(Clone, Copy, Debug)]
pub struct Lines<'a> {
    text: &'a [u8],
    last: Position,
    ghost counted: { last ≡ position_of text.now last.at },
}

/// The position of the place `at` of `text`, counted on from `near`, which is one of its positions
/// and not behind `at`.
fn count_on(text: &[u8], near: Position, at: usize) -> Position
    requires low { near.at ≤ at }
    requires placed { near ≡ position_of text.now near.at }
    ensures { result ≡ position_of text.now at }
{
    let mut line = near.line;
    let mut column = near.column;
    let end = at.min(text.len());
    let start = near.at.min(end);
    for b in &text[start..end] {
        if *b == b'\n' {
            line += 1;
            column = 1;
        } else {
            column += 1;
        }
    }
    Position { at, line, column }
}

impl<'a> Lines<'a> {
    ghost use Rattle.pieces.specs.Counted.{text_of};

    pub fn new(text: &'a [u8]) -> Lines<'a>
        ensures { text_of result ≡ text.now }
    {
        Lines {
            text,
            last: Position::start(),
        }
    }

    /// The last position, or the start where that is behind `at`.
    fn nearest(&self, at: usize) -> Position
        ensures low { result.at ≤ at }
        ensures placed { result ≡ position_of (text_of self.now) result.at }
    {
        if self.last.at <= at {
            self.last
        } else {
            Position::start()
        }
    }

    /// The position of the place `at`. Behind the end it has the line and column of the end.
    pub fn position(&mut self, at: usize) -> Position
        ensures value { result ≡ position_of (text_of self.old) at }
        ensures same { text_of self.new ≡ text_of self.old }
    {
        let place = count_on(self.text, self.nearest(at), at);
        self.last = place;
        place
    }
}
