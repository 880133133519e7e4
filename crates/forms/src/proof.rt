//! The forms of the proof part.
ghost use Rattle.std.specs.Prelude.{ℕ, ◌∷◌};
ghost use Rattle.std.specs.Option.{MatchOption};
ghost use Rattle.text.specs.Tokens.{opens, symbol as symbolic};
ghost use Rattle.text.specs.Reading.{left};
ghost use Rattle.forms.specs.Forms.{spell_assume, spell_reason, spell_step, spell_anchor, FitAssume, FitReason, FitStep, spell_proof, FitProof};
ghost use Rattle.forms.specs.Parsed.{Parses, Grouped, Clause, NoClause, kept_assume, kept_reason, kept_step, kept_anchor, kept_proof, seen_reason, seen_proof};

use crate::form::{JustifiedBy, ProofForm, Step};
use crate::item::Item;
use crate::takes::{closing, open, symbol, the_keyword, the_symbol};
use crate::terms::{items, placed_term};
use text::Reader;

// A function for each form, since each takes its own row of tokens.

/// `N t)`
fn assume<'a>(body: Reader<'a>) -> Option<ProofForm<'a>>
    ensures { Parses FitAssume spell_assume kept_assume seen_proof (left body.entry) result }
{
    let (name, rest) = symbol(body)?;
    let (term, rest) = placed_term(rest)?;
    closing(rest)?;
    Some(ProofForm::Assume { name, term })
}

/// `:step N)`
fn anchor<'a>(body: Reader<'a>) -> Option<ProofForm<'a>>
    ensures { Parses (λ _. Unit {0}) spell_anchor kept_anchor seen_proof (left body.entry) result }
{
    let (_, named) = the_keyword(body, b"step")?;
    let (step, rest) = symbol(named)?;
    closing(rest)?;
    Some(ProofForm::Anchor { step })
}

/// `:key (item ..)`, or nothing: the place of the list, and the reader after it.
fn group<'a>(reader: Reader<'a>, key: &[u8], kind: Item) -> Option<(Option<usize>, Reader<'a>)>
    ensures { Grouped key.now kind (left reader.entry) result }
{
    let Some((_, list)) = the_keyword(reader, key) else {
        return Some((None, reader));
    };
    let (at, inner) = open(list)?;
    let rest = items(kind, 1, inner)?;
    Some((Some(at), rest))
}

/// `(cl t ..)`: its place, and the reader after it.
fn clause<'a>(reader: Reader<'a>) -> Option<(usize, Reader<'a>)>
    ensures { MatchOption result (NoClause (left reader.entry)) (λ p. Clause (left reader.entry) p.0 (left p.1)) }
{
    let (at, word) = open(reader)?;
    let (_, literals) = the_symbol(word, b"cl")?;
    let rest = items(Item::Term, 0, literals)?;
    Some((at, rest))
}

/// `:rule R :premises (N ..) :args (a ..))`
fn reason<'a>(reader: Reader<'a>) -> Option<JustifiedBy<'a>>
    ensures { Parses FitReason spell_reason kept_reason seen_reason (left reader.entry) result }
{
    let (_, after_key) = the_keyword(reader, b"rule")?;
    let (rule, after_rule) = symbol(after_key)?;
    let (premises, after_premises) = group(after_rule, b"premises", Item::Symbol)?;
    let (args, after_args) = group(after_premises, b"args", Item::Argument)?;
    closing(after_args)?;
    Some(JustifiedBy {
        rule,
        premises,
        args,
    })
}

/// `N (cl t ..) :rule R :premises (N ..) :args (a ..))`
fn step<'a>(body: Reader<'a>) -> Option<ProofForm<'a>>
    ensures { Parses FitStep spell_step kept_step seen_proof (left body.entry) result }
{
    let (name, after_name) = symbol(body)?;
    let (clause, after_clause) = clause(after_name)?;
    let reason = reason(after_clause)?;
    Some(ProofForm::Step(Step {
        name,
        clause,
        reason,
    }))
}

// For each part a function of its own, since the parts have other trees.

/// What follows the bracket and the word `head`.
#[tactic(auto, using(crate::proofs::Heads::no_move))]
fn headed<'a>(head: &[u8], body: Reader<'a>) -> Option<ProofForm<'a>>
    ensures { (at place : ℕ) → Parses FitProof spell_proof kept_proof seen_proof (opens at ∷ symbolic place head.now ∷ left body.entry) result }
{
    match head {
        b"step" => step(body),
        b"assume" => assume(body),
        b"anchor" => anchor(body),
        _ => None,
    }
}

/// A command of the proof part.
pub fn proof<'a>(reader: Reader<'a>) -> Option<ProofForm<'a>>
    ensures { Parses FitProof spell_proof kept_proof seen_proof (left reader.entry) result }
{
    let (_, first) = open(reader)?;
    let (head, body) = symbol(first)?;
    headed(head.text, body)
}
