//! Putting one term into the list.
ghost use Rattle.std.specs.Prelude.{◌≡◌, ◌<◌, ◌≤◌, not, ◌||◌, length, IfOk};
ghost use Rattle.std.specs.List.{AllByRecursion};
ghost use Rattle.entries.specs.Equality.{same_sort};
ghost use Rattle.entries.specs.declared.entry.Sort.TheVariants.{Bool as boolean};
ghost use Rattle.terms.specs.Memory.{listed, most, Onward};
ghost use Rattle.terms.specs.Reads.{head_named, made};
ghost use Rattle.terms.specs.State.{Does};

use crate::list::TermList;
use declarations::{TermFault, name_named, operator};
use entries::{Head, Sort, Term, intern};
use meaning::Terms;
use sorting::{gives_sort, well_formed};

/// Whether a term of the sort `sort` may stand where it has to be `Bool`, or anything.
fn suits(wants: bool, sort: Sort) -> bool
    ensures { result ≡ (not wants || same_sort sort boolean) }
{
    !wants || sort == Sort::Bool
}

impl TermList<'_> {
    /// The head that `word` is, if any: an operator or a declared name.
    pub fn head_named(&self, word: &[u8]) -> Option<Head>
        ensures { result ≡ head_named self.now.names.now word.now }
    {
        operator(word).or_else(|| name_named(self.names, word).map(Head::Declared))
    }

    /// Puts the term at the place `at` with this head and these arguments into the list, unless it
    /// is there: its number. With `wants` it has to be `Bool`.
    pub fn place(
        &mut self,
        wants: bool,
        at: usize,
        head: Head,
        args: &[u16],
    ) -> Result<u16, TermFault>
        requires within { AllByRecursion (λ n. n < self.old.count.now) args.now }
        requires few { length args.now ≤ 64 }
        ensures does { Does (made self.old.names.now (most self.old) wants at head args.now (listed self.old)) result (listed self.new) }
        ensures within { IfOk result (λ n. n < self.new.count.now) }
        ensures onward { Onward self.old self.new }
    {
        // One loan of the list, for the test and for the new term.
        let terms = &mut *self.terms;
        let standing = Terms::new(&terms[..*self.count]);
        if !well_formed(self.names, &standing, head, args) {
            return Err(TermFault::Misfit { at });
        }
        let sort = gives_sort(self.names, head);
        if !suits(wants, sort) {
            return Err(TermFault::Misfit { at });
        }
        intern(terms, self.count, Term::new(head, sort, args)).ok_or(TermFault::Full { at })
    }
}
