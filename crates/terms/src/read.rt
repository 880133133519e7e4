//! Reading a term from its tokens into the list: arguments first, from the left.
ghost use Rattle.std.specs.Prelude.{◌≡◌, ◌<◌, ◌≤◌, false, ◌∷◌, length, take, IfOk};
ghost use Rattle.std.specs.List.{AllByRecursion};
ghost use Rattle.text.specs.Reading.{left};
ghost use Rattle.text.specs.Tokens.{seen, opens};
ghost use Rattle.entries.specs.Filing.{room};
ghost use Rattle.terms.specs.Memory.{listed, most, Onward};
ghost use Rattle.terms.specs.Reading.{told, Begins, ReadsTree, told_all, BeginsAll, ReadsTrees};
ghost use Rattle.terms.specs.State.{Ready, Grown};

use crate::list::TermList;
use declarations::TermFault;
use entries::limits::MOST_ARGUMENTS;
use entries::{Few, Head, Name, Term};
use forms::{next, symbol};
use text::{Reader, Token};

// Memory and count come apart: both are the caller's, who lends them for the call.

/// Reads the term that begins with `first`: its number, and the reader after it. With `wants` it
/// has to be `Bool`. A refusal may leave arguments that were read before it behind the old terms;
/// `read_claim` takes them back.
pub fn read_term<'a>(
    names: &[Name],
    terms: &mut [Term],
    count: &mut usize,
    wants: bool,
    first: Token<'a>,
    after: Reader<'a>,
) -> Result<(u16, Reader<'a>), TermFault>
    requires few { length names.now ≤ 512 }
    requires ready { Ready names.now terms.old count.old }
    requires begins { Begins (seen first ∷ left after) }
    ensures reads { ReadsTree names.now (room 4096 terms.old) wants (seen first.entry ∷ left after.entry) (take count.old terms.old) (told result) (take count.new terms.new) }
    ensures within { IfOk result (λ p. p.0 < count.new) }
    ensures ready { Ready names.now terms.new count.new }
    ensures grown { Grown terms.old count.old terms.new count.new }
{
    let mut list = TermList {
        names,
        terms,
        count,
    };
    list.term(wants, first, after)
}

impl TermList<'_> {
    /// Reads the term that begins with `first`: its number, and the reader after it. With `wants`
    /// it has to be `Bool`.
    #[cycle(arguments_call_term)]
    fn term<'a>(
        &mut self,
        wants: bool,
        first: Token<'a>,
        after: Reader<'a>,
    ) -> Result<(u16, Reader<'a>), TermFault>
        requires { Begins (seen first ∷ left after) }
        ensures reads { ReadsTree self.old.names.now (most self.old) wants (seen first.entry ∷ left after.entry) (listed self.old) (told result) (listed self.new) }
        ensures within { IfOk result (λ p. p.0 < self.new.count.now) }
        ensures onward { Onward self.old self.new }
    {
        match first {
            Token::Symbol { at, text } => {
                let head = self.head_named(text).ok_or(TermFault::Unknown { at })?;
                let number = self.place(wants, at, head, &[])?;
                Ok((number, after))
            }
            Token::Numeral { at, value } => {
                let number = self.place(wants, at, Head::Numeral(value), &[])?;
                Ok((number, after))
            }
            Token::Open { at } => self.call(wants, at, after),
            _ => unreachable!(),
        }
    }

    /// Reads the term in brackets whose bracket stands at `at`.
    #[cycle(arguments_call_term)]
    fn call<'a>(
        &mut self,
        wants: bool,
        at: usize,
        after: Reader<'a>,
    ) -> Result<(u16, Reader<'a>), TermFault>
        requires { Begins (opens at ∷ left after) }
        ensures reads { ReadsTree self.old.names.now (most self.old) wants (opens at ∷ left after.entry) (listed self.old) (told result) (listed self.new) }
        ensures within { IfOk result (λ p. p.0 < self.new.count.now) }
        ensures onward { Onward self.old self.new }
    {
        let Some((word, inner)) = symbol(after) else {
            unreachable!()
        };
        // A `match`, since `?` has no proof where a short list stands beside a reader.
        let (args, rest) = match self.arguments(inner) {
            Ok(read) => read,
            Err(fault) => return Err(fault),
        };
        let head = self
            .head_named(word.text)
            .ok_or(TermFault::Unknown { at: word.at })?;
        let number = self.place(wants, at, head, args.as_slice())?;
        Ok((number, rest))
    }

    /// Reads arguments up to and with the closing bracket: their numbers, and the reader after them.
    #[cycle(arguments_call_term)]
    fn arguments<'a>(
        &mut self,
        reader: Reader<'a>,
    ) -> Result<(Few<u16, MOST_ARGUMENTS>, Reader<'a>), TermFault>
        requires { BeginsAll (left reader) }
        ensures reads { ReadsTrees self.old.names.now (most self.old) (left reader.entry) (listed self.old) (told_all result) (listed self.new) }
        ensures few { IfOk result (λ p. length p.0 ≤ 64) }
        ensures within { IfOk result (λ p. AllByRecursion (λ n. n < self.new.count.now) p.0) }
        ensures onward { Onward self.old self.new }
    {
        let mut rest = reader;
        let mut args = Few::empty();
        loop {
            let Some((first, after)) = next(rest) else {
                unreachable!()
            };
            if let Token::Close { .. } = first {
                return Ok((args, after));
            }
            let (number, behind) = self.term(false, first, after)?;
            args.push(number);
            rest = behind;
        }
    }
}
