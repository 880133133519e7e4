//! A choice of T and φᵢ, and the clause that the letters of a rule then stand for.
ghost use Rattle.std.specs.Prelude.{◌≡◌, ◌<◌, length, map, take, drop};
ghost use Rattle.std.specs.List.{All, list_any, list_all};
ghost use Rattle.entries.specs.declared.entry.Sort.TheVariants as sort;
ghost use Rattle.entries.specs.Clauses.{holds_literal};
ghost use Rattle.entries.specs.Equality.{same_sort};
ghost use Rattle.meaning.specs.Proper.{sort_at};
ghost use Rattle.meaning.specs.Truth.{literal_of};
ghost use Rattle.referee.specs.Sets.{same_set};
ghost use Rattle.connectives.specs.Rules.{begins as begins_by, connects as connects_by, is_picked, choices as choices_of, turned_by, takes as takes_by};
ghost use Rattle.connectives.specs.Choice.{args_of, terms_for, literals_for, clause_for};

use crate::table::{Connective, Part, Piece};
use entries::{Clause, Head, Literal, Sort};
use meaning::Terms;
use referee::has;
use std::marker::Model;
use std::slice;

/// Whether the head is the connective's.
fn begins(connective: Connective, head: Head) -> bool
    ensures { result ≡ begins_by connective head }
{
    match connective {
        Connective::Any => !matches!(head, Head::Not),
        Connective::True => matches!(head, Head::True),
        Connective::False => matches!(head, Head::False),
        Connective::And => matches!(head, Head::And),
        Connective::Or => matches!(head, Head::Or),
        Connective::Implies => matches!(head, Head::Implies),
        Connective::Equiv => matches!(head, Head::Equal),
    }
}

/// Whether the letters have one for the argument that a step picks.
fn picks(pieces: &[Piece]) -> bool
    ensures { result ≡ list_any (λ (p : Piece). is_picked p.part) pieces.now }
{
    pieces.iter().any(|p| matches!(p.part, Part::Picked))
}

/// The literal, or under a negative sign its complement.
fn turned(negative: bool, l: Literal) -> Literal
    ensures { result ≡ turned_by negative l }
{
    if negative { l.complement() } else { l }
}

/// The one from the place `i`, if there is one.
fn one_from(ns: &[u16], i: usize) -> &[u16]
    ensures { result.now ≡ take 1 (drop i ns.now) }
{
    match ns.get(i) {
        Some(n) => slice::from_ref(n),
        None => &[],
    }
}

/// The literals of terms of a list, by their numbers, or under a negative sign the complements.
#[derive(Drop)]
struct Literals<'a> {
    terms: &'a Terms<'a>,
    numbers: &'a [u16],
    negative: bool,
}

impl<'a> Model for Literals<'a> {
    ghost use Rattle.std.specs.Prelude.{List, map, length, ◌<◌};
    ghost use Rattle.std.specs.List.{All};
    ghost use Rattle.entries.specs.declared.entry.Literal.{Literal as OneLiteral};
    ghost use Rattle.meaning.specs.Truth.{literal_of};
    ghost use Rattle.connectives.specs.Rules.{turned_by};

    ghost Value = { List OneLiteral };

    ghost view = { λ a. map (λ n. turned_by a.negative (literal_of a.terms.now n)) a.numbers.now };

    ghost invariant = { λ a. All (λ n. n < length a.terms.now) a.numbers.now };
}

impl Literals<'_> {
    /// Whether the clause has each of them.
    fn all_in(&self, clause: &[Literal]) -> bool
        ensures { result ≡ list_all (holds_literal clause.now) self.now }
    {
        let negative = self.negative;
        self.numbers
            .iter()
            .all(|n| has(clause, turned(negative, self.terms.literal(*n))))
    }

    /// Whether `l` is one of them.
    fn have(&self, l: Literal) -> bool
        ensures { result ≡ holds_literal self.now l }
    {
        let negative = self.negative;
        self.numbers
            .iter()
            .any(|n| turned(negative, self.terms.literal(*n)) == l)
    }
}

/// A choice for the letters of a rule: T is the term with the number `term`, and φᵢ its argument
/// number `picked`, counted from 0.
#[derive(Drop)]
pub(crate) struct Choice<'a> {
    terms: &'a Terms<'a>,
    term: u16,
    picked: usize,
}

impl<'a> Model for Choice<'a> {
    ghost use Rattle.std.specs.Prelude.{length, ◌<◌};
    ghost use Rattle.connectives.specs.Choice.{Chosen};

    ghost Value = { Chosen };

    ghost view = { λ c. record { terms = c.terms.now; term = c.term; picked = c.picked } };

    ghost invariant = { λ c. c.term < length c.terms.now };
}

impl<'a> Choice<'a> {
    pub(crate) fn new(terms: &'a Terms<'a>, term: u16, picked: usize) -> Choice<'a>
        requires { term < length terms.now }
        ensures { result ≡ record { terms = terms.now; term = term; picked = picked } }
    {
        Choice {
            terms,
            term,
            picked,
        }
    }

    /// The arguments of T.
    fn args(&self) -> &[u16]
        ensures args { result.now ≡ args_of self.now }
        ensures within { All (λ n. n < length self.now.terms) result.now }
    {
        self.terms.at(self.term).args()
    }

    /// Whether T has the connective: where that is `=`, it joins Bool terms.
    pub(crate) fn connects(&self, connective: Connective) -> bool
        ensures { result ≡ connects_by connective self.now.terms self.now.term }
    {
        let head = self.terms.at(self.term).head;
        match connective {
            Connective::Equiv => matches!(head, Head::Equal) && self.all_bool(),
            _ => begins(connective, head),
        }
    }

    /// Whether all arguments of T are Bool.
    fn all_bool(&self) -> bool
        ensures { result ≡ list_all (λ n. same_sort (sort_at self.now.terms n) sort.Bool) (args_of self.now) }
    {
        let terms = self.terms;
        self.args().iter().all(|n| terms.at(*n).sort == Sort::Bool)
    }

    /// How many arguments there are to pick from; a single turn where none is picked.
    pub(crate) fn choices(&self, pieces: &[Piece]) -> usize
        ensures { result ≡ choices_of pieces.now (args_of self.now) }
    {
        if picks(pieces) { self.args().len() } else { 1 }
    }

    /// The terms that a letter stands for.
    fn terms_for(&self, part: Part) -> &[u16]
        ensures terms { result.now ≡ terms_for self.now part }
        ensures within { All (λ n. n < length self.now.terms) result.now }
    {
        let args = self.args();
        // A match, since the letters are closed.
        match part {
            Part::Whole => slice::from_ref(&self.term),
            Part::Picked => one_from(args, self.picked),
            Part::All => args,
            Part::First => one_from(args, 0),
            Part::Second => one_from(args, 1),
        }
    }

    /// The literals of a letter with its sign.
    fn literals_for(&self, piece: Piece) -> Literals<'_>
        ensures { result ≡ literals_for self.now piece }
    {
        Literals {
            terms: self.terms,
            numbers: self.terms_for(piece.part),
            negative: piece.negative,
        }
    }

    /// Whether the clause has each literal that the letters stand for.
    fn all_in(&self, pieces: &[Piece], clause: &[Literal]) -> bool
        ensures { result ≡ list_all (λ p. list_all (holds_literal clause.now) (literals_for self.now p)) pieces.now }
    {
        pieces.iter().all(|p| self.literals_for(*p).all_in(clause))
    }

    /// Whether the letters stand for the literal.
    fn give(&self, pieces: &[Piece], l: Literal) -> bool
        ensures { result ≡ list_any (λ p. holds_literal (literals_for self.now p) l) pieces.now }
    {
        pieces.iter().any(|p| self.literals_for(*p).have(l))
    }

    /// Whether the letters stand for each literal of the clause.
    fn give_all(&self, pieces: &[Piece], clause: &[Literal]) -> bool
        ensures { result ≡ list_all (λ l. list_any (λ p. holds_literal (literals_for self.now p) l) pieces.now) clause.now }
    {
        clause.iter().all(|l| self.give(pieces, *l))
    }

    /// Whether the clause is, as a set, what the letters stand for.
    pub(crate) fn is_clause(&self, pieces: &[Piece], clause: &[Literal]) -> bool
        ensures { result ≡ same_set clause.now (clause_for self.now pieces.now) }
    {
        self.all_in(pieces, clause) && self.give_all(pieces, clause)
    }

    /// Whether the premises are what the rule takes.
    pub(crate) fn takes(&self, premise: Option<Piece>, premises: &[Clause]) -> bool
        ensures { result ≡ takes_by self.now.terms self.now.term self.now.picked premise premises.now }
    {
        match (premise, premises) {
            (None, []) => true,
            (Some(piece), [only]) => self.is_clause(&[piece], only.literals()),
            _ => false,
        }
    }
}
