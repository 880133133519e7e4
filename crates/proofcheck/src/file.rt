//! One file: its commands through the layers, and what came of them.
ghost use Rattle.std.specs.Prelude.{IfOk};
ghost use Rattle.pieces.specs.Pieces.{pieces};
ghost use Rattle.proofcheck.specs.Tally.{Tallied};

use crate::report::Report;
use commands::{Outcome, Part, outcome_of};
use pieces::{Cutter, Lines, Position};
use std::io;

/// A file to check: its name, the part that it holds, and whether to list its accepted commands.
#[derive(Clone, Copy)]
pub struct File<'a> {
    pub name: &'a str,
    pub part: Part,
    pub list: bool,
}

/// Prints what the command number `command` of `file` came to, where that is to be seen.
fn print_outcome(
    rt: &HostRuntime,
    file: File<'_>,
    place: Position,
    command: usize,
    outcome: Outcome<'_>,
) -> io::Result<()> {
    let name = file.name;
    let Position { line, column, .. } = place;
    match outcome {
        Outcome::Refused(fault) => println!(rt;
            "{name}:{line}:{column}: refused {}: {fault}, command {command}, byte {}, layer {}",
            fault.number(),
            fault.place(),
            fault.layer()
        ),
        Outcome::Accepted(accepted) if file.list => {
            let form = accepted.form;
            println!(rt; "{name}:{line}:{column}: command {command}: {form}")
        }
        _ => Ok(()),
    }
}

/// Runs the layers over each command of `text`, which `file` holds, and prints what is to be seen.
pub fn check_file(rt: &HostRuntime, file: File<'_>, text: &[u8]) -> io::Result<Report>
    ensures { IfOk result (Tallied file.entry.part (pieces text.now)) }
{
    let mut report = Report::new(file.part);
    let mut lines = Lines::new(text);
    for piece in Cutter::new(text) {
        let outcome = outcome_of(file.part, piece.text);
        let place = lines.position(piece.at.saturating_add(outcome.place()));
        print_outcome(rt, file, place, report.commands + 1, outcome)?;
        report.add(outcome);
    }
    Ok(report)
}
