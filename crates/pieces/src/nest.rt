//! How deep in brackets a text goes, and where its brackets close.
ghost use Rattle.std.specs.Prelude.{◌≡◌, ◌+◌, ◌^◌, ◌<◌, ◌≤◌, length, drop};
ghost use Rattle.pieces.specs.Pieces.{comment_behind, depth_behind, enclosed};

// A byte and whether it stands in a comment come apart: the one is read, the other kept.

/// Whether a comment goes on behind the byte `b`.
pub fn comment_behind(comment: bool, b: u8) -> bool
    ensures { result ≡ comment_behind comment b }
{
    match b as char {
        '\n' | '\r' => false,
        ';' => true,
        _ => comment,
    }
}

/// How many brackets are open behind the byte `b`, which stands in brackets.
fn depth_behind(depth: usize, comment: bool, b: u8) -> usize
    requires within { 0 < depth }
    requires room { depth + 1 < 2 ^ 64 }
    ensures { result ≡ depth_behind depth comment b }
{
    if comment {
        return depth;
    }
    match b as char {
        '(' => depth + 1,
        ')' => depth - 1,
        _ => depth,
    }
}

/// Where the bracket that stands before `from` is closed: behind the bracket that closes it, or at
/// the end of the text where none does.
pub fn bracket_end(text: &[u8], from: usize) -> usize
    requires before { 0 < from }
    requires within { from ≤ length text.now }
    ensures value { result ≡ from + enclosed (drop from text.now) }
    ensures within { result ≤ length text.now }
{
    let mut depth = 1;
    let mut comment = false;
    for (passed, b) in text[from..].iter().enumerate() {
        depth = depth_behind(depth, comment, *b);
        comment = comment_behind(comment, *b);
        if depth == 0 {
            return from + passed + 1;
        }
    }
    text.len()
}
