//! What solvers write around problems and proofs, and no layer looks at.
ghost use Rattle.std.specs.Prelude.{◌≡◌, [], Decides};
ghost use Rattle.text.specs.Reading.{left};
ghost use Rattle.text.specs.Tokens.{tokens};
ghost use Rattle.commands.specs.Chatter.{Answer, Request, Setting, Answers, Requests, Speech, Chatter};

use crate::part::Part;
use forms::{closing, open, symbol};
use pieces::balances;
use text::Reader;

/// Whether a solver answers with `word`.
fn answers(word: &[u8]) -> bool
    ensures { Decides result (Answer word.now) }
{
    matches!(word, b"unsat" | b"success")
}

/// Whether `word` alone in brackets asks a solver for something.
fn requests(word: &[u8]) -> bool
    ensures { Decides result (Request word.now) }
{
    matches!(word, b"check-sat" | b"get-proof" | b"exit")
}

/// Whether a command that begins with `word` sets up a solver.
fn settles(word: &[u8]) -> bool
    ensures { Decides result (Setting word.now) }
{
    matches!(word, b"set-option" | b"set-info")
}

/// Whether no token is left.
fn ended(mut reader: Reader<'_>) -> bool
    ensures { Decides result (left reader.entry ≡ []) }
{
    matches!(reader.next(), Ok(None))
}

/// Whether the tokens are one bare word that a solver answers with.
fn is_answer(reader: Reader<'_>) -> bool
    ensures { Decides result (Answers (left reader.entry)) }
{
    // `let .. else`, since what follows goes on with the reader that is given.
    let Some((word, rest)) = symbol(reader) else {
        return false;
    };
    answers(word.text) && ended(rest)
}

/// Whether the tokens are a command to a solver.
fn is_request(reader: Reader<'_>) -> bool
    ensures { Decides result (Requests (left reader.entry)) }
{
    // `let .. else`, since what follows goes on with the reader that is given.
    let Some((_, first)) = open(reader) else {
        return false;
    };
    let Some((word, rest)) = symbol(first) else {
        return false;
    };
    settles(word.text) || requests(word.text) && closing(rest).is_some()
}

/// Whether the tokens of `text` are what solvers say in this part.
fn is_speech(part: Part, text: &[u8]) -> bool
    ensures { Decides result (Speech part (tokens text.now)) }
{
    // A match, since there are two parts.
    match part {
        Part::Problem => is_request(Reader::new(text)),
        Part::Proof => is_answer(Reader::new(text)),
    }
}

/// Whether `text` is solver chatter in this part. A text whose brackets do not balance is none.
pub fn is_chatter(part: Part, text: &[u8]) -> bool
    ensures { Decides result (Chatter part text.now) }
{
    is_speech(part, text) && balances(text)
}
