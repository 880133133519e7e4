//! The form layer over a whole command.
ghost use Rattle.text.specs.Tokens.{tokens};
ghost use Rattle.forms.specs.Forms.{spell_problem, FitProblem, spell_proof, FitProof};
ghost use Rattle.forms.specs.Parsed.{kept_problem, seen_problem, kept_proof, seen_proof};
ghost use Rattle.forms.specs.Layer.{Layer, Unambiguous};

use crate::depth::shallow;
use crate::fault::FormFault;
use crate::form::{ProblemForm, ProofForm};
use crate::problem::problem;
use crate::proof::proof;
use text::Reader;

// Two lines for each part: what the parts share is `shallow`.

/// The command of the problem part that `text` is.
pub fn problem_form<'a>(text: &'a [u8]) -> Result<ProblemForm<'a>, FormFault>
    ensures value { Layer FitProblem spell_problem kept_problem seen_problem (tokens text.now) result }
    ensures unambiguous { Unambiguous }
{
    shallow(text)?;
    problem(Reader::new(text)).ok_or(FormFault::NoForm)
}

/// The command of the proof part that `text` is.
pub fn proof_form<'a>(text: &'a [u8]) -> Result<ProofForm<'a>, FormFault>
    ensures value { Layer FitProof spell_proof kept_proof seen_proof (tokens text.now) result }
    ensures unambiguous { Unambiguous }
{
    shallow(text)?;
    proof(Reader::new(text)).ok_or(FormFault::NoForm)
}
