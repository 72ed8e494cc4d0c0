//! The program: a job on standard input, its page or its refusal on standard output.
#![tactic(auto)]

use std::process::ExitCode;
use std::{env, io};
use vx_base::{NoLedger, Steps};
use vx_tool::{Note, Status, StdinSource, StdoutSink, run_noted};

/// What is told where the words ask for nothing that the program does.
const HELP: &str =
    "Reads a job from standard input, parts of a column and a plan of steps, and writes the plan's answers and
the column's rows to standard output. A job is JSON, as in
    {\"parts\":[{\"flat\":\"i64\",\"rows\":[1,2,3]}],\"plan\":[{\"slice\":[1,3]}]}
The status is 0 for a page, 1 for a refusal, 2 for these words, 3 for bytes that are no job, 4 to 7 for ends and memory.";

/// The words of the command line, without the program's name.
fn words_of(rt: &HostRuntime) -> io::Result<Vec<String>> {
    let mut words = Vec::new(rt.alloc());
    for word in env::args(rt)?.skip(1) {
        words.push(word)?;
    }
    Ok(words)
}

/// How a run ends whose words can't be told: words that are no text ask for no run.
fn status_of(error: &io::Error) -> Status {
    match error.kind() {
        io::ErrorKind::OutOfMemory => Status::OutOfMemory,
        _ => Status::Usage,
    }
}

/// Runs the job between the real ends.
fn run(rt: &HostRuntime, note: &mut Note) -> Status {
    let words = match words_of(rt) {
        Ok(words) => words,
        Err(error) => return status_of(&error),
    };
    let mut source = StdinSource::new(rt.stdin());
    let mut sink = StdoutSink::new(rt.stdout());
    let mut steps = Steps::new(rt, NoLedger::new());
    run_noted(rt.alloc(), &words, &mut source, &mut sink, &mut steps, note)
}

/// Tells on standard error how a run ended that wrote neither a page nor a whole refusal. What can't be told there is
/// told by the status alone.
fn tell(rt: &HostRuntime, status: Status, note: &Note) -> io::Result<()> {
    let name = status.name();
    match note.reason() {
        _ if status == Status::Usage => eprintln!(rt; "vxcol: {name}\n{HELP}"),
        Some(reason) => eprintln!(rt; "vxcol: {name}: {reason}"),
        None => eprintln!(rt; "vxcol: {name}"),
    }
}

fn main(rt: HostRuntime) -> ExitCode {
    let mut note = Note::new();
    let status = run(&rt, &mut note);
    if status != Status::Ok && status != Status::Refused {
        let _ = tell(&rt, status, &note);
    }
    ExitCode::from(status.code())
}
