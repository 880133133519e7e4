//! Whether the brackets of a text balance.
ghost use Rattle.std.specs.Prelude.{◌≡◌, not, ◌&&◌, if◌then◌else◌, Decides, ◌==◌};
ghost use Rattle.pieces.specs.Laws.{Balanced};

use crate::nest::comment_behind;

/// How often the byte `b` counts as `bracket`: once if it is that byte and stands in no comment.
fn counts(comment: bool, b: u8, bracket: u8) -> usize
    ensures { result ≡ (if not comment && b == bracket then 1 else 0) }
{
    usize::from(!comment && b == bracket)
}

/// Whether as many brackets close as open in `text`, those in comments aside.
pub fn balances(text: &[u8]) -> bool
    ensures { Decides result (Balanced text.now) }
{
    let mut comment = false;
    let mut opened = 0;
    let mut closed = 0;
    for b in text {
        opened += counts(comment, *b, b'(');
        closed += counts(comment, *b, b')');
        comment = comment_behind(comment, *b);
    }
    opened == closed
}
