//! Reading the term of a claim or of an assumption.
ghost use Rattle.std.specs.Prelude.{◌<◌, ◌≤◌, length, take, IfOk};
ghost use Rattle.text.specs.Tokens.{tokens_from};
ghost use Rattle.entries.specs.Filing.{room};
ghost use Rattle.terms.specs.Reading.{Begins, ReadsClaim};
ghost use Rattle.terms.specs.State.{Ready, Grown};

use crate::guard::Provisional;
use crate::read::read_term;
use declarations::TermFault;
use entries::{Name, Term};
use forms::next;
use text::Reader;

// Memory and count come apart: both are the caller's, who lends them for the call.

/// Reads the term at the place `at` of `text`, which has to be `Bool`: its number. A refusal leaves
/// the list as it was.
pub fn read_claim(
    names: &[Name],
    terms: &mut [Term],
    count: &mut usize,
    text: &[u8],
    at: usize,
) -> Result<u16, TermFault>
    requires few { length names.now ≤ 512 }
    requires ready { Ready names.now terms.old count.old }
    requires begins { Begins (tokens_from text.now at) }
    ensures reads { ReadsClaim names.now (room 4096 terms.old) (tokens_from text.now at) (take count.old terms.old) result (take count.new terms.new) }
    ensures within { IfOk result (λ n. n < count.new) }
    ensures ready { Ready names.now terms.new count.new }
    ensures grown { Grown terms.old count.old terms.new count.new }
{
    let Some((first, after)) = next(Reader::at(text, at)) else {
        unreachable!()
    };
    let old = *count;
    let guard = Provisional { count, old };
    let (number, _) = read_term(names, terms, guard.count, true, first, after)?;
    guard.keep();
    Ok(number)
}
