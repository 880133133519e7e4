//! The reader of tokens, and the token layer over a whole command.
ghost use Rattle.std.specs.Prelude.{◌≡◌, ◌+◌, ◌<◌, ◌≤◌, length, drop, slice_index};
ghost use Rattle.text.specs.Tokens.{lexeme, tokens, tokens_from};
ghost use Rattle.text.specs.Reading.{left, Next, Scans, Leftmost};
ghost use Rattle.text.specs.Layout.{Lexed};

use crate::bytes::{Kind, kind_of};
use crate::spans::{Names, run_end, skip};
use crate::token::{Token, TokenFault, token_at};

/// Reads the tokens of a command one by one.
#[derive(Clone, Copy, Debug)]
pub struct Reader<'a> {
    text: &'a [u8],
    cursor: usize,
}

/// Where the lexeme that begins at `at` ends.
fn lexeme_end(text: &[u8], at: usize) -> usize
    requires { at < length text.now }
    ensures value { result ≡ at + 1 + lexeme (slice_index text.now at) (drop (at + 1) text.now) }
    ensures within { result ≤ length text.now }
{
    match kind_of(text[at]) {
        Kind::Colon | Kind::Digit | Kind::Initial => run_end::<Names>(text, at + 1),
        _ => at + 1,
    }
}

impl<'a> Reader<'a> {
    pub fn new(text: &'a [u8]) -> Reader<'a>
        ensures all { left result ≡ tokens text.now }
        ensures few { length (left result) ≤ length text.now }
    {
        Reader { text, cursor: 0 }
    }

    /// A reader of the tokens of `text` from the place `at` on.
    pub fn at(text: &'a [u8], at: usize) -> Reader<'a>
        ensures { left result ≡ tokens_from text.now at }
    {
        Reader { text, cursor: at }
    }

    /// The next token, or `None` at the end. At a fault the reader stays.
    // No `Iterator`, since a reader that stays at its fault would give it for ever.
    pub fn next(&mut self) -> Result<Option<Token<'a>>, TokenFault>
        ensures { Next (left self.old) result (left self.new) }
    {
        let at = skip(self.text, self.cursor);
        if at >= self.text.len() {
            return Ok(None);
        }
        let end = lexeme_end(self.text, at);
        let token = token_at(at, &self.text[at..end])?;
        self.cursor = end;
        Ok(Some(token))
    }
}

/// Runs the token layer over a whole command: how many tokens it has, or its leftmost fault.
pub fn scan(text: &[u8]) -> Result<usize, TokenFault>
    ensures value { Scans (tokens text.now) result }
    ensures leftmost { Leftmost (tokens text.now) result }
    ensures lexed { Lexed text.now }
{
    let mut reader = Reader::new(text);
    // A loop, since the reader is no iterator.
    let mut count = 0;
    while let Some(_) = reader.next()? {
        count += 1;
    }
    Ok(count)
}
