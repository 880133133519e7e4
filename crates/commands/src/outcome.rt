//! What a command comes to.
ghost use Rattle.std.specs.Prelude.{◌≡◌};
ghost use Rattle.text.specs.Tokens.{tokens};
ghost use Rattle.commands.specs.Outcomes.{Examined, Comes, Determined, kind_of, place_of, command_count, token_count};

use crate::chatter::is_chatter;
use crate::fault::Fault;
use crate::form::{Form, form_of};
use crate::kind::Kind;
use crate::part::Part;
use text::scan;

/// A command that every layer accepts: how many tokens it has, and its form.
#[derive(Clone, Copy)]
pub struct Command<'a> {
    pub tokens: usize,
    pub form: Form<'a>,
}

/// Solver chatter is skipped; all else is accepted or refused.
// Three names of its own: an `Option` of a `Result` would call them `None`, `Ok` and `Err`.
#[derive(Clone, Copy)]
pub enum Outcome<'a> {
    Skipped,
    Accepted(Command<'a>),
    Refused(Fault),
}

impl Outcome<'_> {
    /// What it is counted as.
    pub fn kind(self) -> Kind
        ensures { result ≡ kind_of self.entry }
    {
        match self {
            Outcome::Skipped => Kind::Skipped,
            Outcome::Refused(_) => Kind::Refused,
            Outcome::Accepted(command) => command.form.kind(),
        }
    }

    /// How many accepted commands it is.
    pub fn accepted(self) -> usize
        ensures { result ≡ command_count self.entry }
    {
        usize::from(matches!(self, Outcome::Accepted(_)))
    }

    /// How many tokens of an accepted command it has.
    pub fn tokens(self) -> usize
        ensures { result ≡ token_count self.entry }
    {
        match self {
            Outcome::Accepted(command) => command.tokens,
            _ => 0,
        }
    }

    /// The byte of the command to point at: the first at fault, or else the first of all.
    pub fn place(self) -> usize
        ensures { result ≡ place_of self.entry }
    {
        match self {
            Outcome::Refused(fault) => fault.place(),
            _ => 0,
        }
    }
}

/// Runs the layers over a command: its tokens, its brackets and its form.
pub fn examine<'a>(part: Part, text: &'a [u8]) -> Result<Command<'a>, Fault>
    ensures { Examined part (tokens text.now) result }
{
    let tokens = scan(text)?;
    let form = form_of(part, text)?;
    Ok(Command { tokens, form })
}

// Part and text come apart, since one file has one part and many texts.

/// What the command `text` of the part `part` comes to.
pub fn outcome_of<'a>(part: Part, text: &'a [u8]) -> Outcome<'a>
    ensures value { Comes part text.now result }
    ensures determined { Determined part text.now }
{
    if is_chatter(part, text) {
        return Outcome::Skipped;
    }
    // A match, which names both outcomes.
    match examine(part, text) {
        Ok(command) => Outcome::Accepted(command),
        Err(fault) => Outcome::Refused(fault),
    }
}
