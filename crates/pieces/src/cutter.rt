//! The cutter of a file: its pieces one by one.
ghost use Rattle.std.specs.Prelude.{◌≡◌, ◌+◌, ◌<◌, ◌≤◌, length, drop, slice_index};
ghost use Rattle.std.specs.Iterator.{YieldsFirstBy, item_count};
ghost use Rattle.pieces.specs.Pieces.{is_bare, piece, pieces};
ghost use Rattle.pieces.specs.Cutting.{left, size, seen};
ghost use Rattle.pieces.specs.Laws.{Cut};

use crate::nest::bracket_end;
use text::{Class, Kind, kind_of, run_end, skip};

/// The bytes that go on a bare word.
pub struct Bare;

impl Class for Bare {
    ghost holds = { is_bare };

    fn has(b: u8) -> bool {
        !matches!(b as char, ' ' | '\t' | '\n' | '\r' | ';' | '(' | ')')
    }
}

/// A piece of a file: a command, a bare word, a stray bracket or an unclosed rest. `at` is the
/// place of its first byte.
#[derive(Clone, Copy, Debug)]
pub struct Piece<'a> {
    pub at: usize,
    pub text: &'a [u8],
}

/// Cuts a file into its pieces.
#[derive(Clone, Copy, Debug)]
pub struct Cutter<'a> {
    text: &'a [u8],
    cursor: usize,
}

/// Where the piece that begins at `at` ends.
fn piece_end(text: &[u8], at: usize) -> usize
    requires { at < length text.now }
    ensures value { result ≡ at + 1 + piece (slice_index text.now at) (drop (at + 1) text.now) }
    ensures within { result ≤ length text.now }
{
    match kind_of(text[at]) {
        Kind::Open => bracket_end(text, at + 1),
        Kind::Close | Kind::Blank | Kind::Comment => at + 1,
        Kind::Colon | Kind::Digit | Kind::Initial | Kind::Other => run_end::<Bare>(text, at + 1),
    }
}

impl<'a> Cutter<'a> {
    pub fn new(text: &'a [u8]) -> Cutter<'a>
        ensures all { left result ≡ pieces text.now }
        ensures few { length (left result) ≤ length text.now }
        ensures fits { size (left result) ≤ length text.now }
        ensures law { Cut text.now }
    {
        Cutter { text, cursor: 0 }
    }
}

/// Gives the pieces in order. After the last there is none any more.
impl<'a> Iterator for Cutter<'a> {
    type Item = Piece<'a>;

    ghost next_gives = { YieldsFirstBy seen left };

    ghost remaining = { item_count left };

    fn next(&mut self) -> Option<Piece<'a>> {
        let at = skip(self.text, self.cursor);
        if at >= self.text.len() {
            return None;
        }
        let end = piece_end(self.text, at);
        self.cursor = end;
        Some(Piece {
            at,
            text: &self.text[at..end],
        })
    }
}
