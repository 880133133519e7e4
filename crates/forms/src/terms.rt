//! Terms, and lists of items up to a closing bracket.
ghost use Rattle.std.specs.Prelude.{◌∷◌, MatchOption};
ghost use Rattle.text.specs.Reading.{left};
ghost use Rattle.text.specs.Tokens.{seen};
ghost use Rattle.forms.specs.Trees.{First, FirstAt, NoneFirst, Listed, NotListed};
ghost use Rattle.forms.specs.declared.item.Item.TheVariants.{Term as Terms, Symbol as Symbols, Argument as Arguments};

use crate::item::Item;
use crate::takes::{close, next, numeral, symbol, the_symbol};
use text::{Reader, Token};

/// The most items of a list.
pub const MOST_ITEMS: usize = 64;

// The first token and the reader after it come apart, since the token says how the reader goes on.

/// Reads the term that begins with `first`, and gives the reader after it.
#[cycle(item_items_term)]
pub fn term<'a>(first: Token<'a>, after: Reader<'a>) -> Option<Reader<'a>>
    ensures { MatchOption result (NoneFirst Terms (seen first.entry ∷ left after.entry)) (λ rest. First Terms (seen first.entry ∷ left after.entry) (left rest)) }
{
    match first {
        Token::Symbol { .. } | Token::Numeral { .. } => Some(after),
        Token::Open { .. } => {
            let (_, inner) = symbol(after)?;
            items(Item::Term, 1, inner)
        }
        _ => None,
    }
}

/// Reads the argument that begins with `first`.
fn argument<'a>(first: Token<'a>, after: Reader<'a>) -> Option<Reader<'a>>
    ensures { MatchOption result (NoneFirst Arguments (seen first.entry ∷ left after.entry)) (λ rest. First Arguments (seen first.entry ∷ left after.entry) (left rest)) }
{
    match first {
        Token::Numeral { .. } => Some(after),
        Token::Open { .. } => {
            let (_, signed) = the_symbol(after, b"-")?;
            let (_, _, last) = numeral(signed)?;
            let (_, rest) = close(last)?;
            Some(rest)
        }
        _ => None,
    }
}

/// Reads the item that begins with `first`.
#[cycle(item_items_term)]
fn item<'a>(kind: Item, first: Token<'a>, after: Reader<'a>) -> Option<Reader<'a>>
    ensures { MatchOption result (NoneFirst kind (seen first.entry ∷ left after.entry)) (λ rest. First kind (seen first.entry ∷ left after.entry) (left rest)) }
{
    // A match, since the kinds of items are closed.
    match kind {
        Item::Term => term(first, after),
        Item::Symbol => match first {
            Token::Symbol { .. } => Some(after),
            _ => None,
        },
        Item::Argument => argument(first, after),
    }
}

/// Reads items up to and with a closing bracket: at least `least` and at most 64.
#[cycle(item_items_term)]
pub fn items<'a>(kind: Item, least: usize, reader: Reader<'a>) -> Option<Reader<'a>>
    ensures { MatchOption result (NotListed kind least (left reader.entry)) (λ rest. Listed kind least (left reader.entry) (left rest)) }
{
    let mut rest = reader;
    // A number, since too few items are told from enough.
    for count in 0..MOST_ITEMS + 1 {
        let (first, after) = next(rest)?;
        if let Token::Close { .. } = first {
            return if count < least { None } else { Some(after) };
        }
        rest = item(kind, first, after)?;
    }
    None
}

/// Reads a term: its place, and the reader after it.
pub fn placed_term<'a>(reader: Reader<'a>) -> Option<(usize, Reader<'a>)>
    ensures { MatchOption result (NoneFirst Terms (left reader.entry)) (λ p. FirstAt Terms (left reader.entry) p.0 (left p.1)) }
{
    let (first, after) = next(reader)?;
    let rest = term(first, after)?;
    Some((first.place(), rest))
}
