//! The forms of both parts, and how people see them.
ghost use Rattle.std.specs.Prelude.{◌≡◌, Some};
ghost use Rattle.std.specs.Fmt.{WritesOnOk};
ghost use Rattle.text.specs.Tokens.{tokens};
ghost use Rattle.commands.specs.Outcomes.{OfForm, form_kind};
ghost use Rattle.commands.specs.Shown.{name_shown, problem_shown, proof_shown, form_shown};

use crate::kind::Kind;
use crate::part::Part;
use forms::{FormFault, ProblemForm, ProofForm, Word, problem_form, proof_form};
use std::fmt;
use std::str::from_utf8;

/// A form of one of the parts.
#[derive(Clone, Copy)]
pub enum Form<'a> {
    Problem(ProblemForm<'a>),
    Proof(ProofForm<'a>),
}

impl Form<'_> {
    /// Which form it is.
    pub fn kind(self) -> Kind
        ensures { result ≡ form_kind self.entry }
    {
        match self {
            Form::Problem(ProblemForm::SetLogic { .. }) => Kind::SetLogic,
            Form::Problem(ProblemForm::DeclareSort { .. }) => Kind::DeclareSort,
            Form::Problem(ProblemForm::DeclareFun { .. }) => Kind::DeclareFun,
            Form::Problem(ProblemForm::Assert { .. }) => Kind::Assert,
            Form::Proof(ProofForm::Assume { .. }) => Kind::Assume,
            Form::Proof(ProofForm::Step(_)) => Kind::Step,
            Form::Proof(ProofForm::Anchor { .. }) => Kind::Anchor,
        }
    }
}

/// The form of the part `part` that `text` is.
pub fn form_of<'a>(part: Part, text: &'a [u8]) -> Result<Form<'a>, FormFault>
    ensures { OfForm part (tokens text.now) result }
{
    // A match, since there are two parts.
    match part {
        Part::Problem => problem_form(text).map(Form::Problem),
        Part::Proof => proof_form(text).map(Form::Proof),
    }
}

/// A name as people see it; its bytes are ASCII.
fn shown(name: Word<'_>) -> &str
    ensures { result.now ≡ name_shown name.entry }
{
    from_utf8(name.text).unwrap_or("?")
}

/// The form, and the name that it declares or bears.
impl fmt::Display for Form<'_> {
    ghost output = { λ form. Some (form_shown form) };

    fn fmt<W: fmt::Write>(&self, f: &mut fmt::Formatter<W>) -> fmt::Result {
        match *self {
            Form::Problem(form) => show_problem(form, f),
            Form::Proof(form) => show_proof(form, f),
        }
    }
}

fn show_problem<W: fmt::Write>(form: ProblemForm<'_>, f: &mut fmt::Formatter<W>) -> fmt::Result
    ensures { WritesOnOk W.write_str_gives f.old result (problem_shown form.entry) f.new }
{
    match form {
        ProblemForm::SetLogic { logic } => write!(f, "set-logic {}", shown(logic)),
        ProblemForm::DeclareSort { sort } => write!(f, "declare-sort {}", shown(sort)),
        ProblemForm::DeclareFun { function, .. } => write!(f, "declare-fun {}", shown(function)),
        ProblemForm::Assert { .. } => f.write_str("assert"),
    }
}

fn show_proof<W: fmt::Write>(form: ProofForm<'_>, f: &mut fmt::Formatter<W>) -> fmt::Result
    ensures { WritesOnOk W.write_str_gives f.old result (proof_shown form.entry) f.new }
{
    match form {
        ProofForm::Assume { name, .. } => write!(f, "assume {}", shown(name)),
        ProofForm::Step(step) => write!(
            f,
            "step {} by {}",
            shown(step.name),
            shown(step.reason.rule)
        ),
        ProofForm::Anchor { step } => write!(f, "anchor {}", shown(step)),
    }
}
