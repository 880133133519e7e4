//! Runs of bytes, and the blanks and comments between parts.
ghost use Rattle.std.specs.Prelude.{◌≡◌, ℕ, ◌+◌, ◌≤◌, Bool, length, drop};
ghost use Rattle.std.specs.List.{prefix_len};
ghost use Rattle.text.specs.Bytes.{is_name, in_line};
ghost use Rattle.text.specs.Parts.{Skips};

use crate::bytes::{Kind, is_name, kind_of};

/// A class of bytes, whose longest runs are looked for.
pub trait Class {
    ghost holds: { ℕ → Bool };

    fn has(b: u8) -> bool
        ensures { result ≡ holds b };
}

/// The bytes of names.
pub struct Names;

impl Class for Names {
    ghost holds = { is_name };

    fn has(b: u8) -> bool {
        is_name(b)
    }
}

/// The bytes that do not end a line.
pub struct Line;

impl Class for Line {
    ghost holds = { in_line };

    fn has(b: u8) -> bool {
        !matches!(b as char, '\n' | '\r')
    }
}

/// How long the longest run of bytes of the class `C` is that `text` begins with.
fn run_length<C: Class>(text: &[u8]) -> usize
    ensures value { result ≡ prefix_len C.holds text.now }
    ensures within { result ≤ length text.now }
{
    text.iter().take_while(|b| C::has(**b)).count()
}

/// Where the longest run of bytes of the class `C` from `from` on ends.
pub fn run_end<C: Class>(text: &[u8], from: usize) -> usize
    ensures value { result ≡ from + prefix_len C.holds (drop from text.now) }
    ensures within { from ≤ length text.now → result ≤ length text.now }
{
    from + text.get(from..).map_or(0, |rest| run_length::<C>(rest))
}

/// Where the next part of `text` from `from` on begins: past blanks and comments.
pub fn skip(text: &[u8], from: usize) -> usize
    ensures { Skips text.now from result }
{
    // An index, since the cursor jumps over whole comments.
    let mut at = from;
    while at < text.len() {
        match kind_of(text[at]) {
            Kind::Blank => at += 1,
            Kind::Comment => at = run_end::<Line>(text, at + 1),
            _ => return at,
        }
    }
    at
}
