//! The sorts that a declaration names.
ghost use Rattle.text.specs.Reading.{left};
ghost use Rattle.declarations.specs.Calls.{seen_function, IsDeclaration, Makes, IsListed, ReadsSorts};

use crate::fault::TermFault;
use crate::function::Function;
use crate::known::Known;
use entries::limits::MOST_ARGUMENTS;
use entries::{Few, Name, Sort, Symbol};
use forms::symbol;
use text::Reader;

/// Reads the sorts up to a closing bracket.
fn sorts_of(reader: Reader<'_>, known: &Known<'_>) -> Result<Few<Sort, MOST_ARGUMENTS>, TermFault>
    requires { IsListed (left reader) }
    ensures { ReadsSorts known.now.sorts.now (left reader.entry) result }
{
    let mut rest = reader;
    let mut sorts = Few::empty();
    // A loop, since the reader that gives the words is no iterator.
    for _ in 0..MOST_ARGUMENTS {
        let Some((word, after)) = symbol(rest) else {
            break;
        };
        sorts.push(known.sort_of(word)?);
        rest = after;
    }
    Ok(sorts)
}

/// What the declaration makes: the name with its sorts.
pub fn signature(text: &[u8], known: &Known<'_>, declared: Function<'_>) -> Result<Name, TermFault>
    requires { IsDeclaration text.now (seen_function declared) }
    ensures { Makes text.now (seen_function declared.entry) known.now.sorts.now result }
{
    let mut reader = Reader::at(text, declared.takes);
    // The opening bracket.
    let _ = reader.next();
    let takes = sorts_of(reader, known)?;
    let gives = known.sort_of(declared.gives)?;
    Ok(Name {
        word: Symbol::new(declared.name.text),
        takes,
        gives,
    })
}
