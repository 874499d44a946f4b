// Reads a session from the files that are named as arguments, or from standard input, and writes what each line is told.
#![tactic(auto)]

mod arguments;
mod problem;
mod running;

ghost use Rattle.std.specs.Prelude.{◌≡◌, drop, if◌then◌else◌, is_ok};
ghost use Rattle.std.specs.Process.{exit_status};
ghost use Rattle.holdbook.specs.Runs.{Ran};

use crate::arguments::{Asked, asked_by};
use crate::problem::Problem;
use crate::running::answer;
use std::io::BufWriter;
use std::process::ExitCode;
use std::{env, io};

const HELP: &str = "usage: holdbook [FILE]...

Reads a session of a capacity-sharing pool, one entry a line, from the files in
order, or from standard input where none is named, and answers each line:

    +  LETTER                accepted
    !  NUMBER  PLACE  PLACE  refused, and why
    =  ACCOUNT  BALANCE      after an accepted Z: what each account has, in cents

One tab parts the fields. docs/LINES.md has the entries, docs/REFUSALS.md the
numbers.

    --help  print this and end";

// How many bytes are written at once, at most.
const WRITTEN: usize = 65_536;

// Does what the arguments ask for.
fn run<'a>(rt: &HostRuntime, arguments: &'a [String]) -> Result<(), Problem<'a>>
    ensures { Ran arguments.now result }
{
    match asked_by(arguments) {
        Asked::Help => match println!(rt; "{HELP}") {
            Ok(()) => Ok(()),
            Err(e) => Err(Problem::Output(e)),
        },
        Asked::Unknown(option) => Err(Problem::Option(option)),
        Asked::Session(names) => {
            match BufWriter::with_capacity(rt.alloc(), WRITTEN, io::writer(rt)) {
                Ok(mut writer) => answer(rt, names, &mut writer),
                Err(e) => Err(Problem::Output(e)),
            }
        }
    }
}

// What follows the program's own name.
fn own(arguments: &[String]) -> &[String]
    ensures { result.now ≡ drop 1 arguments.now }
{
    match arguments {
        [] => &[],
        [_, own @ ..] => own,
    }
}

// All arguments, of which the system alone knows.
fn given(rt: &HostRuntime) -> io::Result<Vec<String>> {
    Ok(env::args(rt)?.collect(rt.alloc())?)
}

// Tells a problem on standard error. The exit status is 0 where there was none, else 1.
fn told(rt: &HostRuntime, done: Result<(), Problem>) -> ExitCode
    ensures { exit_status result ≡ (if is_ok done.entry then 0 else 1) }
{
    match done {
        Ok(()) => ExitCode::SUCCESS,
        Err(problem) => {
            // Where not even standard error takes it, the status tells.
            let _ = eprintln!(rt; "holdbook: {problem}");
            ExitCode::FAILURE
        }
    }
}

fn main(rt: HostRuntime) -> ExitCode {
    match given(&rt) {
        Ok(arguments) => told(&rt, run(&rt, own(&arguments))),
        Err(e) => told(&rt, Err(Problem::Arguments(e))),
    }
}
