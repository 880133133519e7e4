//! Tokens, their faults, and what a lexeme is.
ghost use Rattle.std.specs.Prelude.{◌≡◌, ◌<◌, length, if◌then◌else◌, Some, None};
ghost use Rattle.text.specs.Tokens.{number_of, place_of, message_of, place, is_numeral, value_on, token_at, seen, told};

use crate::bytes::{Kind, kind_of};
use std::fmt;

/// The longest token, in bytes, with a keyword's colon.
const LONGEST: usize = 64;

/// The largest numeral.
const LARGEST: u32 = 1_000_000;

/// A token of a command: `at` is the place of its first byte, and `text` its bytes, a keyword's
/// without the colon.
#[derive(Clone, Copy, Debug)]
pub enum Token<'a> {
    Open { at: usize },
    Close { at: usize },
    Symbol { at: usize, text: &'a [u8] },
    Keyword { at: usize, text: &'a [u8] },
    Numeral { at: usize, value: u32 },
}

impl Token<'_> {
    /// The place of the token's first byte.
    pub fn place(self) -> usize
        ensures { result ≡ place (seen self.entry) }
    {
        match self {
            Token::Open { at }
            | Token::Close { at }
            | Token::Symbol { at, .. }
            | Token::Keyword { at, .. }
            | Token::Numeral { at, .. } => at,
        }
    }
}

/// What can be wrong with a command's bytes, and where.
#[derive(Clone, Copy, Debug, PartialEq)]
pub enum TokenFault {
    /// A byte of no token.
    Stray { at: usize },
    /// A colon with no name byte after it.
    BareColon { at: usize },
    /// A token of more than 64 bytes.
    TooLong { at: usize },
    /// A digit first, and no numeral.
    BadNumeral { at: usize },
}

impl TokenFault {
    /// The refusal's number, by which people are told of it.
    pub fn number(self) -> u8
        ensures { result ≡ number_of self }
    {
        match self {
            TokenFault::Stray { .. } | TokenFault::BareColon { .. } | TokenFault::TooLong { .. } =>
                10,
            TokenFault::BadNumeral { .. } => 11,
        }
    }

    /// The place of the first byte that is at fault.
    pub fn place(self) -> usize
        ensures { result ≡ place_of self }
    {
        match self {
            TokenFault::Stray { at }
            | TokenFault::BareColon { at }
            | TokenFault::TooLong { at }
            | TokenFault::BadNumeral { at } => at,
        }
    }
}

/// The words that people see.
impl fmt::Display for TokenFault {
    ghost output = { λ fault. Some (message_of fault) };

    fn fmt<W: fmt::Write>(&self, f: &mut fmt::Formatter<W>) -> fmt::Result {
        match *self {
            TokenFault::Stray { .. } => f.write_str("a byte that belongs to no token"),
            TokenFault::BareColon { .. } => f.write_str("a colon with no name after it"),
            TokenFault::TooLong { .. } => f.write_str("a token of more than 64 bytes"),
            TokenFault::BadNumeral { .. } => f.write_str(
                "a digit first, but no numeral from 0 to 1000000",
            ),
        }
    }
}

/// The number that `run` writes, if it is a numeral.
fn numeral(run: &[u8]) -> Option<u32>
    ensures { result ≡ (if is_numeral run.now then Some (value_on 0 run.now) else None) }
{
    if let [b'0', _, ..] = run {
        return None;
    }
    let mut value = 0;
    for b in run {
        if !b.is_ascii_digit() {
            return None;
        }
        value = value * 10 + u32::from(*b - b'0');
        if value > LARGEST {
            return None;
        }
    }
    Some(value)
}

/// The token that the lexeme `bytes` at the place `at` is.
pub fn token_at<'a>(at: usize, bytes: &'a [u8]) -> Result<Token<'a>, TokenFault>
    requires { 0 < length bytes.now }
    ensures { told result ≡ token_at at bytes.now }
{
    if bytes.len() > LONGEST {
        return Err(TokenFault::TooLong { at });
    }
    match kind_of(bytes[0]) {
        Kind::Open => Ok(Token::Open { at }),
        Kind::Close => Ok(Token::Close { at }),
        Kind::Colon if bytes.len() > 1 => Ok(Token::Keyword {
            at,
            text: &bytes[1..],
        }),
        Kind::Colon => Err(TokenFault::BareColon { at }),
        Kind::Digit => numeral(bytes)
            .map(|value| Token::Numeral { at, value })
            .ok_or(TokenFault::BadNumeral { at }),
        Kind::Initial => Ok(Token::Symbol { at, text: bytes }),
        Kind::Blank | Kind::Comment | Kind::Other => Err(TokenFault::Stray { at }),
    }
}
