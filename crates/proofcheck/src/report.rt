//! What was found in a file: how often each kind of outcome.
ghost use Rattle.std.specs.Prelude.{◌≡◌, ◌+◌, ◌^◌, ◌<◌, length, slice_index, slice_set, Some};
ghost use Rattle.commands.specs.Outcomes.{number, kind_of, command_count, token_count};

use commands::{Kind, Outcome, Part};
use std::fmt;

/// The outcomes of a part, counted: `commands` and `tokens` are those of accepted commands, and
/// `counts` has a place for each kind.
#[derive(Clone, Copy)]
pub struct Report {
    part: Part,
    pub commands: usize,
    tokens: usize,
    counts: [usize; 9],
    ghost full: { length counts ≡ 9 },
}

impl Report {
    pub fn new(part: Part) -> Report
        ensures commands { result.commands ≡ 0 }
        ensures tokens { result.tokens ≡ 0 }
        ensures counts { (k : Kind) → slice_index result.counts (number k) ≡ 0 }
    {
        Report {
            part,
            commands: 0,
            tokens: 0,
            counts: [0; 9],
        }
    }

    /// How many outcomes were of the kind `kind`.
    pub fn count(&self, kind: Kind) -> usize
        ensures { result ≡ slice_index self.now.counts (number kind) }
    {
        self.counts[kind.index()]
    }

    /// Counts one more outcome.
    pub fn add(&mut self, outcome: Outcome<'_>)
        requires commands { self.old.commands + 1 < 2 ^ 64 }
        requires tokens { self.old.tokens + token_count outcome < 2 ^ 64 }
        requires counts { slice_index self.old.counts (number (kind_of outcome)) + 1 < 2 ^ 64 }
        ensures commands { self.new.commands ≡ self.old.commands + command_count outcome.entry }
        ensures tokens { self.new.tokens ≡ self.old.tokens + token_count outcome.entry }
        ensures counts { self.new.counts ≡ slice_set self.old.counts (number (kind_of outcome.entry)) (slice_index self.old.counts (number (kind_of outcome.entry)) + 1) }
    {
        self.commands += outcome.accepted();
        self.tokens += outcome.tokens();
        self.counts[outcome.kind().index()] += 1;
    }
}

/// How often each form of the report's part was found.
#[derive(Clone, Copy)]
struct Forms<'a>(&'a Report);

impl fmt::Display for Forms<'_> {
    ghost use Rattle.proofcheck.specs.Summary.{forms_shown};

    ghost output = { λ forms. Some (forms_shown forms.0.now.part forms.0.now) };

    fn fmt<W: fmt::Write>(&self, f: &mut fmt::Formatter<W>) -> fmt::Result {
        let report = self.0;
        match report.part {
            Part::Problem => write!(
                f,
                "{} set-logic, {} declare-sort, {} declare-fun, {} assert",
                report.count(Kind::SetLogic),
                report.count(Kind::DeclareSort),
                report.count(Kind::DeclareFun),
                report.count(Kind::Assert)
            ),
            Part::Proof => write!(
                f,
                "{} assume, {} step, {} anchor",
                report.count(Kind::Assume),
                report.count(Kind::Step),
                report.count(Kind::Anchor)
            ),
        }
    }
}

/// A line that sums the report up.
impl fmt::Display for Report {
    ghost use Rattle.proofcheck.specs.Summary.{report_shown};

    ghost output = { λ report. Some (report_shown report) };

    fn fmt<W: fmt::Write>(&self, f: &mut fmt::Formatter<W>) -> fmt::Result {
        write!(
            f,
            "{} commands ({}), {} tokens, {} skipped, {} refused",
            self.commands,
            Forms(self),
            self.tokens,
            self.count(Kind::Skipped),
            self.count(Kind::Refused)
        )
    }
}
