//! The sorts of arguments.
ghost use Rattle.std.specs.Prelude.{◌≡◌, ◌<◌, map, length, replicate};
ghost use Rattle.meaning.specs.Proper.{sort_at};
ghost use Rattle.meaning.specs.Sorts.{all, many as several_of, twins, same_sorts};
ghost use Rattle.sorting.specs.Within.{Within};

use entries::Sort;
use meaning::Terms;
use std::marker::Model;

/// Arguments of a term: terms of a list, by their numbers. Clauses see the sorts of them.
#[derive(Drop)]
pub struct Args<'a> {
    terms: &'a Terms<'a>,
    numbers: &'a [u16],
}

impl<'a> Model for Args<'a> {
    ghost use Rattle.std.specs.Prelude.{List, map, length, ◌<◌};
    ghost use Rattle.std.specs.List.{All};
    ghost use Rattle.entries.specs.declared.entry.Sort.{Sort as OneSort};
    ghost use Rattle.meaning.specs.Proper.{sort_at};

    ghost Value = { List OneSort };

    ghost view = { λ a. map (sort_at a.terms.now) a.numbers.now };

    ghost invariant = { λ a. All (λ n. n < length a.terms.now) a.numbers.now };
}

impl<'a> Args<'a> {
    pub fn new(terms: &'a Terms<'a>, numbers: &'a [u16]) -> Args<'a>
        requires { Within terms.now numbers.now }
        ensures { result ≡ map (sort_at terms.now) numbers.now }
    {
        Args { terms, numbers }
    }

    /// Whether each has the sort `sort`.
    fn all_of(&self, sort: Sort) -> bool
        ensures { result ≡ all sort self.now }
    {
        self.numbers.iter().all(|n| self.terms.at(*n).sort == sort)
    }

    /// Whether there are `count`, each of the sort `sort`.
    pub fn exactly(&self, count: usize, sort: Sort) -> bool
        ensures { result ≡ same_sorts self.now (replicate count sort) }
    {
        self.numbers.len() == count && self.all_of(sort)
    }

    /// Whether there are two or more, each of the sort `sort`.
    pub fn several(&self, sort: Sort) -> bool
        ensures { result ≡ several_of sort self.now }
    {
        self.numbers.len() >= 2 && self.all_of(sort)
    }

    /// Whether there are two of one sort.
    pub fn pair(&self) -> bool
        ensures { result ≡ twins self.now }
    {
        match self.numbers {
            [a, b] => self.terms.at(*a).sort == self.terms.at(*b).sort,
            _ => false,
        }
    }

    /// Whether they have the sorts `sorts`.
    pub fn agree(&self, sorts: &[Sort]) -> bool
        ensures { result ≡ same_sorts self.now sorts.now }
    {
        self.numbers.len() == sorts.len()
            && self
                .numbers
                .iter()
                .zip(sorts)
                .all(|(n, sort)| self.terms.at(*n).sort == *sort)
    }
}
