//! Taking single tokens off a reader.
ghost use Rattle.std.specs.Prelude.{◌≡◌, ℕ, [], ◌∷◌, Decides, MatchOption, ◌≢◌};
ghost use Rattle.text.specs.Reading.{left};
ghost use Rattle.text.specs.Tokens.{seen, opens, closes, symbol as symbolic, keyword as keyed};
ghost use Rattle.forms.specs.Takes.{NoToken, Takes, TakesSymbol, TakesNumeral};

use crate::word::Word;
use text::{Reader, Token};

/// Whether two words have the same bytes.
// A function, since its clause is on the words: `==` says it element by element.
pub fn same(a: &[u8], b: &[u8]) -> bool
    ensures { Decides result (a.now ≡ b.now) }
{
    a == b
}

/// The next token, and the reader after it.
pub fn next<'a>(mut reader: Reader<'a>) -> Option<(Token<'a>, Reader<'a>)>
    ensures { MatchOption result (NoToken (left reader.entry)) (λ p. left reader.entry ≡ seen p.0 ∷ left p.1) }
{
    let token = reader.next().ok()??;
    Some((token, reader))
}

// Each takes its token by a match of its own: a closure in its place would hold the same match.
/// An opening bracket: its place, and the reader after it.
pub fn open<'a>(mut reader: Reader<'a>) -> Option<(usize, Reader<'a>)>
    ensures { Takes opens (left reader.entry) result }
{
    match reader.next() {
        Ok(Some(Token::Open { at })) => Some((at, reader)),
        _ => None,
    }
}

/// A closing bracket.
pub fn close<'a>(mut reader: Reader<'a>) -> Option<(usize, Reader<'a>)>
    ensures { Takes closes (left reader.entry) result }
{
    match reader.next() {
        Ok(Some(Token::Close { at })) => Some((at, reader)),
        _ => None,
    }
}

/// Any symbol.
pub fn symbol<'a>(mut reader: Reader<'a>) -> Option<(Word<'a>, Reader<'a>)>
    ensures { TakesSymbol (left reader.entry) result }
{
    match reader.next() {
        Ok(Some(Token::Symbol { at, text })) => Some((Word { at, text }, reader)),
        _ => None,
    }
}

/// Any numeral: its place and its value.
pub fn numeral<'a>(mut reader: Reader<'a>) -> Option<(usize, u32, Reader<'a>)>
    ensures { TakesNumeral (left reader.entry) result }
{
    match reader.next() {
        Ok(Some(Token::Numeral { at, value })) => Some((at, value, reader)),
        _ => None,
    }
}

/// The symbol `word`.
pub fn the_symbol<'a>(mut reader: Reader<'a>, word: &[u8]) -> Option<(usize, Reader<'a>)>
    ensures { Takes (λ at. symbolic at word.now) (left reader.entry) result }
{
    match reader.next() {
        Ok(Some(Token::Symbol { at, text })) if same(text, word) => Some((at, reader)),
        _ => None,
    }
}

/// The keyword `word`, which is given without its colon.
pub fn the_keyword<'a>(mut reader: Reader<'a>, word: &[u8]) -> Option<(usize, Reader<'a>)>
    ensures { Takes (λ at. keyed at word.now) (left reader.entry) result }
{
    match reader.next() {
        Ok(Some(Token::Keyword { at, text })) if same(text, word) => Some((at, reader)),
        _ => None,
    }
}

/// A closing bracket with nothing after it: its place.
pub fn closing(reader: Reader<'_>) -> Option<usize>
    ensures { MatchOption result ((at : ℕ) → left reader.entry ≢ closes at ∷ []) (λ at. left reader.entry ≡ closes at ∷ []) }
{
    let (at, mut after) = close(reader)?;
    match after.next() {
        Ok(None) => Some(at),
        _ => None,
    }
}
