//! The two declarations.
ghost use Rattle.std.specs.Prelude.{◌≡◌, ◌≤◌, length, take};
ghost use Rattle.forms.specs.Parsed.{named};
ghost use Rattle.entries.specs.Filing.{room};
ghost use Rattle.declarations.specs.Calls.{DeclaresSort, seen_function, IsDeclaration, DeclaresFun};
ghost use Rattle.declarations.specs.Declaring.{at_end};

use crate::fault::TermFault;
use crate::function::Function;
use crate::known::Known;
use crate::signature::signature;
use entries::limits::{MOST_NAMES, MOST_SORTS};
use entries::{Name, Symbol};
use forms::Word;

/// Puts `entry` at the end of a list, unless the list is full: then what stands at `at` is at fault.
fn add<T: Copy>(
    list: &mut [T],
    count: &mut usize,
    limit: usize,
    entry: T,
    at: usize,
) -> Result<(), TermFault>
    requires { count.old ≤ room limit list.old }
    ensures adds { (result, take count.new list.new) ≡ at_end (room limit list.old) (take count.old list.old) at entry }
    ensures few { count.new ≤ room limit list.new }
{
    let end = *count;
    if end >= limit.min(list.len()) {
        return Err(TermFault::Full { at });
    }
    list[end] = entry;
    *count = end + 1;
    Ok(())
}

// Memory and count come apart: both are the caller's, who lends them for the call.

/// `(declare-sort word 0)`: one more sort, unless the word is taken or the list is full.
pub fn declare_sort(
    sorts: &mut [Symbol],
    count: &mut usize,
    names: &[Name],
    word: Word<'_>,
) -> Result<(), TermFault>
    requires few_sorts { count.old ≤ room 32 sorts.old }
    requires few_names { length names.now ≤ 512 }
    ensures declares { DeclaresSort sorts.old count.old names.now (named word.entry) result sorts.new count.new }
    ensures few { count.new ≤ room 32 sorts.new }
{
    let known = Known {
        sorts: &sorts[..*count],
        names,
    };
    if known.is_taken(word.text) {
        return Err(TermFault::Taken { at: word.at });
    }
    add(sorts, count, MOST_SORTS, Symbol::new(word.text), word.at)
}

/// `(declare-fun name (S ..) S)`: one more name, unless its word is taken, a sort is unknown or the
/// list is full. `text` is the whole command.
pub fn declare_fun(
    text: &[u8],
    sorts: &[Symbol],
    names: &mut [Name],
    count: &mut usize,
    declared: Function<'_>,
) -> Result<(), TermFault>
    requires few_sorts { length sorts.now ≤ 32 }
    requires few_names { count.old ≤ room 512 names.old }
    requires form { IsDeclaration text.now (seen_function declared) }
    ensures declares { DeclaresFun text.now (seen_function declared.entry) sorts.now names.old count.old result names.new count.new }
    ensures few { count.new ≤ room 512 names.new }
{
    let at = declared.name.at;
    let known = Known {
        sorts,
        names: &names[..*count],
    };
    if known.is_taken(declared.name.text) {
        return Err(TermFault::Taken { at });
    }
    let name = signature(text, &known, declared)?;
    add(names, count, MOST_NAMES, name, at)
}
