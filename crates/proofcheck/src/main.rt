//! `proofcheck PROBLEM PROOF`: reads a problem and its proof, and says which commands are well formed.
#![tactic(auto)]

mod failure;
mod file;
mod report;

use crate::failure::Failure;
use crate::file::{File, check_file};
use crate::report::Report;
use commands::{Kind, Part};
use std::process::ExitCode;
use std::{env, fs};

const USAGE: &str = "usage: proofcheck [--list] PROBLEM PROOF";

const HELP: &str = "usage: proofcheck [--list] PROBLEM PROOF

Reads the problem in the file PROBLEM and its proof in the file PROOF, command by command, and
says which commands are well formed. It does not judge the proof: no word of it is an acceptance.
Each command that is refused has a line of its own,

    FILE:LINE:COLUMN: refused NUMBER: WORDS, command N, byte B, layer LAYER

where byte B of the command's text, counted from 0, is the first at fault, and N is one more
than the commands of the file that were accepted before it. With --list each command that is
accepted has a line, too, with its form and its name. What solvers write around a problem and a
proof is skipped: in PROBLEM (check-sat), (get-proof), (exit), (set-option ..) and
(set-info ..), in PROOF the words unsat and success. A line for each file and a last line sum
up. The status is 0 where no command is refused, and 1 otherwise.";

/// The bytes of the file `name`.
fn read(rt: &HostRuntime, name: &str) -> Result<Vec<u8>, Failure> {
    fs::read(rt, name).or_else(|error| {
        eprintln!(rt; "proofcheck: cannot read {name}: {error}")?;
        Err(Failure::Unreadable)
    })
}

/// Checks `file`, which holds `text`, and prints a line that sums it up.
fn check(rt: &HostRuntime, file: File<'_>, text: &[u8]) -> Result<Report, Failure> {
    let report = check_file(rt, file, text)?;
    let name = file.name;
    println!(rt; "{name}: {report}")?;
    Ok(report)
}

/// Reads both files, checks them, and prints what came of it.
fn run(rt: &HostRuntime, list: bool, problem: &str, proof: &str) -> Result<(), Failure> {
    let claims = read(rt, problem)?;
    let steps = read(rt, proof)?;
    let problem = File {
        name: problem,
        part: Part::Problem,
        list,
    };
    let proof = File {
        name: proof,
        part: Part::Proof,
        list,
    };
    let first = check(rt, problem, &claims)?.count(Kind::Refused);
    let second = check(rt, proof, &steps)?.count(Kind::Refused);
    let refused = first.saturating_add(second);
    if refused > 0 {
        println!(rt; "commands refused: {refused}")?;
        return Err(Failure::Refused);
    }
    println!(rt;
        "all commands have passed the token and form layers; the proof itself is not judged yet"
    )?;
    Ok(())
}

/// Says on the standard error how the program is used.
fn misused(rt: &HostRuntime) -> Result<(), Failure> {
    eprintln!(rt; "proofcheck: two files are wanted\n{USAGE}")?;
    Err(Failure::Usage)
}

/// Does what the arguments ask for.
fn answer(rt: &HostRuntime) -> Result<(), Failure> {
    let mut args = env::args(rt)?.skip(1);
    let mut first = args.next();
    let list = first.as_deref() == Some("--list");
    if list {
        first = args.next();
    }
    let Some(problem) = first else {
        return misused(rt);
    };
    if problem.as_str() == "--help" {
        println!(rt; "{HELP}")?;
        return Ok(());
    }
    let Some(proof) = args.next() else {
        return misused(rt);
    };
    if args.next().is_some() {
        return misused(rt);
    }
    run(rt, list, problem.as_str(), proof.as_str())
}

/// The status is 0 where all is well, and 1 otherwise; nothing more is printed here.
fn main(rt: HostRuntime) -> ExitCode {
    match answer(&rt) {
        Ok(()) => ExitCode::SUCCESS,
        Err(_) => ExitCode::FAILURE,
    }
}
