//! The words that are known once sorts and names are declared.
ghost use Rattle.std.specs.Prelude.{◌≡◌, ◌≤◌, length};
ghost use Rattle.forms.specs.Parsed.{named};
ghost use Rattle.declarations.specs.Known.{declared_sort, sort_named, name_named, is_taken};
ghost use Rattle.declarations.specs.Signatures.{sort_of};

use crate::fault::TermFault;
use crate::words::{built_in, is_reserved};
use entries::{Name, Sort, Symbol, position};
use forms::Word;

/// The declared sorts and names: so few that the number of each fits its type.
#[derive(Drop)]
pub struct Known<'a> {
    pub sorts: &'a [Symbol],
    pub names: &'a [Name],
    ghost few_sorts: { length sorts.now ≤ 32 },
    ghost few_names: { length names.now ≤ 512 },
}

/// The first of `sorts` with the word `word`, if any.
fn declared_sort(sorts: &[Symbol], word: &[u8]) -> Option<Sort>
    requires { length sorts.now ≤ 32 }
    ensures { result ≡ declared_sort sorts.now word.now }
{
    let place = position(sorts, sorts.len(), &Symbol::new(word))?;
    Some(Sort::Declared(place as u8))
}

impl Known<'_> {
    /// The sort that `word` is, if any: `Bool`, `Int`, or the first declared one with that word.
    pub fn sort_named(&self, word: &[u8]) -> Option<Sort>
        ensures { result ≡ sort_named self.now.sorts.now word.now }
    {
        built_in(word).or_else(|| declared_sort(self.sorts, word))
    }

    /// The number of the name that `word` is, if any: the first declared one with that word.
    pub fn name_named(&self, word: &[u8]) -> Option<u16>
        ensures { result ≡ name_named self.now.names.now word.now }
    {
        let sought = Name::new(Symbol::new(word), &[], Sort::Bool);
        let place = position(self.names, self.names.len(), &sought)?;
        Some(place as u16)
    }

    /// Whether `word` is taken: it is reserved, a sort or a name.
    pub fn is_taken(&self, word: &[u8]) -> bool
        ensures { result ≡ is_taken self.now.sorts.now self.now.names.now word.now }
    {
        is_reserved(word) || self.sort_named(word).is_some() || self.name_named(word).is_some()
    }

    /// The sort that a written word names.
    pub fn sort_of(&self, word: Word<'_>) -> Result<Sort, TermFault>
        ensures { result ≡ sort_of self.now.sorts.now (named word.entry) }
    {
        self.sort_named(word.text)
            .ok_or(TermFault::Unknown { at: word.at })
    }
}

/// The sort that `word` is, if any: `Bool`, `Int`, or the first of `sorts` with that word.
pub fn sort_named(sorts: &[Symbol], word: &[u8]) -> Option<Sort>
    requires { length sorts.now ≤ 32 }
    ensures { result ≡ sort_named sorts.now word.now }
{
    Known { sorts, names: &[] }.sort_named(word)
}

/// The number of the declared name that `word` is, if any: the first of `names` with that word.
pub fn name_named(names: &[Name], word: &[u8]) -> Option<u16>
    requires { length names.now ≤ 512 }
    ensures { result ≡ name_named names.now word.now }
{
    Known { sorts: &[], names }.name_named(word)
}
