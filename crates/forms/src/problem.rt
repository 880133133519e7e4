//! The forms of the problem part.
ghost use Rattle.std.specs.Prelude.{ℕ, ◌∷◌};
ghost use Rattle.text.specs.Reading.{left};
ghost use Rattle.text.specs.Tokens.{opens, symbol as symbolic};
ghost use Rattle.forms.specs.Forms.{spell_set_logic, spell_declare_sort, spell_declare_fun, spell_assert, FitDeclareFun, FitAssert, spell_problem, FitProblem};
ghost use Rattle.forms.specs.Parsed.{Parses, kept_set_logic, kept_declare_sort, kept_declare_fun, kept_assert, kept_problem, seen_problem};

use crate::form::ProblemForm;
use crate::item::Item;
use crate::takes::{closing, numeral, open, symbol};
use crate::terms::{items, placed_term};
use text::Reader;

/// The arity of declared sorts.
const ARITY: u32 = 0;

// A function for each form, since each takes its own row of tokens.

/// `S)`
fn set_logic<'a>(body: Reader<'a>) -> Option<ProblemForm<'a>>
    ensures { Parses (λ _. Unit {0}) spell_set_logic kept_set_logic seen_problem (left body.entry) result }
{
    let (logic, rest) = symbol(body)?;
    closing(rest)?;
    Some(ProblemForm::SetLogic { logic })
}

/// `S 0)`
fn declare_sort<'a>(body: Reader<'a>) -> Option<ProblemForm<'a>>
    ensures { Parses (λ _. Unit {0}) spell_declare_sort kept_declare_sort seen_problem (left body.entry) result }
{
    let (sort, arity) = symbol(body)?;
    let (_, value, rest) = numeral(arity)?;
    if value != ARITY {
        return None;
    }
    closing(rest)?;
    Some(ProblemForm::DeclareSort { sort })
}

/// `f (S ..) S)`
fn declare_fun<'a>(body: Reader<'a>) -> Option<ProblemForm<'a>>
    ensures { Parses FitDeclareFun spell_declare_fun kept_declare_fun seen_problem (left body.entry) result }
{
    let (function, list) = symbol(body)?;
    let (takes, sorts) = open(list)?;
    let result = items(Item::Symbol, 0, sorts)?;
    let (gives, rest) = symbol(result)?;
    closing(rest)?;
    Some(ProblemForm::DeclareFun {
        function,
        takes,
        gives,
    })
}

/// `t)`
fn assert<'a>(body: Reader<'a>) -> Option<ProblemForm<'a>>
    ensures { Parses FitAssert spell_assert kept_assert seen_problem (left body.entry) result }
{
    let (term, rest) = placed_term(body)?;
    closing(rest)?;
    Some(ProblemForm::Assert { term })
}

/// What follows the bracket and the word `head`.
fn headed<'a>(head: &[u8], body: Reader<'a>) -> Option<ProblemForm<'a>>
    ensures { (at place : ℕ) → Parses FitProblem spell_problem kept_problem seen_problem (opens at ∷ symbolic place head.now ∷ left body.entry) result }
{
    match head {
        b"assert" => assert(body),
        b"declare-fun" => declare_fun(body),
        b"declare-sort" => declare_sort(body),
        b"set-logic" => set_logic(body),
        _ => None,
    }
}

/// A command of the problem part.
pub fn problem<'a>(reader: Reader<'a>) -> Option<ProblemForm<'a>>
    ensures { Parses FitProblem spell_problem kept_problem seen_problem (left reader.entry) result }
{
    let (_, first) = open(reader)?;
    let (head, body) = symbol(first)?;
    headed(head.text, body)
}
