//! A list of terms that mean something.
ghost use Rattle.std.specs.Prelude.{◌≡◌, ◌<◌, ◌≤◌, map, length};
ghost use Rattle.std.specs.List.{AllByRecursion};
ghost use Rattle.entries.specs.declared.entry.Head.TheVariants as head;
ghost use Rattle.entries.specs.Clauses.{clause_from};
ghost use Rattle.entries.specs.Equality.{same_kind};
ghost use Rattle.meaning.specs.Proper.{Formed, term_at};
ghost use Rattle.meaning.specs.Truth.{literal_of, LiteralMeans, ClauseMeans};

use entries::{Clause, Head, Literal, Term};
use std::marker::Model;

/// The term with the number `n`.
pub fn term_at(terms: &[Term], n: u16) -> &Term
    requires { n < length terms.now }
    ensures { result.now ≡ term_at terms.now n }
{
    &terms[n as usize]
}

fn is_not(op: Head) -> bool
    ensures { result ≡ same_kind op head.Not }
{
    matches!(op, Head::Not)
}

/// Terms in a list, where arguments stand before their term and make a term with its head. A term
/// goes by its number, which is its place.
#[derive(Drop)]
pub struct Terms<'a> {
    list: &'a [Term],
}

impl<'a> Model for Terms<'a> {
    ghost use Rattle.std.specs.Prelude.{List};
    ghost use Rattle.entries.specs.declared.entry.Term.{Term as OneTerm};
    ghost use Rattle.meaning.specs.Proper.{Formed};

    ghost Value = { List OneTerm };

    ghost view = { λ t. t.list.now };

    ghost invariant = { λ t. Formed t.list.now };
}

impl<'a> Terms<'a> {
    pub fn new(list: &'a [Term]) -> Terms<'a>
        requires { Formed list.now }
        ensures { result ≡ list.now }
    {
        Terms { list }
    }

    /// The terms in their order.
    pub fn as_slice(&self) -> &[Term]
        ensures list { result.now ≡ self.now }
        ensures formed { Formed self.now }
    {
        self.list
    }

    /// The term with the number `n`.
    pub fn at(&self, n: u16) -> &Term
        requires { n < length self.now }
        ensures term { result.now ≡ term_at self.now n }
        ensures formed { Formed self.now }
    {
        term_at(self.list, n)
    }

    /// The literal of the term with the number `n`: the term without its leading `not`s, negative if
    /// their number was odd. It is true exactly where the term is.
    pub fn literal(&self, n: u16) -> Literal
        requires { n < length self.now }
        ensures literal { result ≡ literal_of self.now n }
        ensures within { result.term ≤ n }
        ensures truth { LiteralMeans self.now result n }
    {
        let mut at = n;
        let mut negative = false;
        while is_not(self.at(at).head) {
            at = self.at(at).args()[0];
            negative = !negative;
        }
        Literal { negative, term: at }
    }

    /// The clause of written terms, by their numbers: their literals in written order, later repeats
    /// dropped. It is true exactly where one of the terms is.
    pub fn clause(&self, written: &[u16]) -> Clause
        requires within { AllByRecursion (λ n. n < length self.now) written.now }
        requires few { length written.now ≤ 64 }
        ensures literals { result ≡ clause_from (map (literal_of self.now) written.now) }
        ensures within { AllByRecursion (λ (l : Literal). l.term < length self.now) result }
        ensures truth { ClauseMeans self.now result written.now }
    {
        // Tells the proof that the terms are formed, though none is written.
        let _ = &self.list;
        let mut clause = Clause::new();
        for n in written {
            clause.push(self.literal(*n));
        }
        clause
    }
}
