// Replays the sessions of a folder through the function that the program serves with, and compares their answers, byte
// for byte, with those that the rules give.
#![tactic(auto)]

mod comparing;
mod judging;
mod names;
mod verdict;

ghost use Rattle.std.specs.Prelude.{◌≡◌, ◌&&◌, IfOk};
ghost use Rattle.sessions.specs.Verdicts.{IsReplayed, is_faultless};

use crate::judging::judge;
use crate::names::NAMES;
use crate::verdict::Verdict;
use std::process::ExitCode;
use std::rt::{Env, Files};
use std::{env, fs, io};

// Replays the session of that name, whatever its two files have.
fn replay<R: Files + AllocGlobal>(rt: &R, folder: &str, name: &str) -> io::Result<Verdict>
    ensures { IfOk result IsReplayed }
{
    let text = fs::read(rt, format!(in rt.alloc(); "{folder}/{name}.txt")?)?;
    let expected = fs::read(rt, format!(in rt.alloc(); "{folder}/{name}.answers")?)?;
    judge(rt.alloc(), &text, &expected)
}

// Whether all was as expected so far, and here too. What could not be read was not.
fn still_faultless(so_far: bool, replayed: &io::Result<Verdict>) -> bool
    ensures { result ≡ (so_far && is_faultless replayed.now) }
{
    match replayed {
        Ok(verdict) => so_far && verdict.finds_no_fault(),
        Err(_) => false,
    }
}

// Replays all sessions, writes a line for each, and tells whether each was answered as expected.
fn replay_all<R: Files + AllocGlobal + Print>(rt: &R, folder: &str) -> io::Result<bool> {
    let mut all = true;
    for name in NAMES {
        let replayed = replay(rt, folder, name);
        all = still_faultless(all, &replayed);
        match replayed {
            Ok(verdict) => println!(rt; "{name}: {verdict}")?,
            Err(e) => println!(rt; "{name}: {e}")?,
        }
    }
    Ok(all)
}

// Replays the sessions of the folder that is named as an argument, or else of the one that this is run in.
fn run<R: Files + AllocGlobal + Env + Print>(rt: &R) -> io::Result<bool> {
    match env::args(rt)?.nth(1) {
        Some(folder) => replay_all(rt, &folder),
        None => replay_all(rt, "."),
    }
}

fn main(rt: HostRuntime) -> ExitCode {
    let told = match run(&rt) {
        Ok(true) => return ExitCode::SUCCESS,
        Ok(false) => Ok(()),
        Err(e) => eprintln!(rt; "sessions: {e}"),
    };
    // Where not even standard error takes it, the status tells.
    let _ = told;
    ExitCode::FAILURE
}
