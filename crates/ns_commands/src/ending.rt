//! How a run of the program ends: what is said then, and the exit status.

ghost use Rattle.std.specs.Prelude.{◌≡◌, ◌≤◌, IsOk, IsErr};
ghost use Rattle.std.specs.Process.{exit_status};
ghost use Rattle.ns_commands.specs.Status.{IsAskedFor, IsStatusOf, IsEnd};

use crate::fault::{Fault, status_of};
use clap::Error;
use ns_log::{Log, error};
use ns_words::BadWords;
use std::process::ExitCode;

/// How a run of the program ended.
#[derive(Drop)]
pub enum End<'a> {
    /// What was asked for was done, or failed.
    Ran(Result<(), Fault<'a>>),
    /// Nothing was asked for that is to be done.
    Refused(BadWords),
}

/// Writes a fault to standard error, and gives the exit status.
pub fn ended<R: Eprint>(rt: &R, outcome: &Result<(), Fault>) -> ExitCode
    ensures done { IsOk outcome.now → exit_status result ≡ 0 }
    ensures failed { IsErr outcome.now → exit_status result ≡ 1 }
{
    if let Err(fault) = outcome {
        let _ = eprintln!(rt; "{fault}");
    }
    status_of(outcome)
}

// Prints a text that was asked for, or the text about bad words, and gives the exit status.
fn shown<R: Eprint + Print, L: Log>(rt: &R, log: &L, error: &Error) -> ExitCode
    ensures asked { IsAskedFor error.now → exit_status result ≤ 1 }
    ensures bad { ¬ IsAskedFor error.now → exit_status result ≡ 2 }
{
    let printed = error.print(rt);
    if error.use_stderr() {
        return ExitCode::from(2);
    }
    match printed {
        Ok(()) => ExitCode::SUCCESS,
        Err(error) => {
            error!(log; "standard output: {error}");
            ended(rt, &Err(Fault::Io))
        }
    }
}

/// Says why the words ask for nothing, and gives the exit status: 0 for help and the version, and 1 where they could not be printed; 1 for
/// want of memory; 2 for bad words.
pub fn refused<R: Eprint + Print, L: Log>(rt: &R, log: &L, bad: &BadWords) -> ExitCode
    ensures status { IsStatusOf bad.now (exit_status result) }
{
    match bad {
        BadWords::NoMemory => {
            error!(log; "no memory for the command line");
            ended(rt, &Err(Fault::NoMemory))
        }
        BadWords::NotText => {
            error!(log; "the command line is no text in UTF-8");
            let _ = eprintln!(rt; "bad arguments");
            ExitCode::from(2)
        }
        BadWords::BadValue(name) => {
            error!(log; "--{name} takes {}", name.takes());
            let _ = eprintln!(rt; "bad arguments: --{name}");
            ExitCode::from(2)
        }
        BadWords::Shown(error) => shown(rt, log, error),
    }
}

/// Says why a run ended early, and gives the exit status.
pub fn concluded<R: Eprint + Print, L: Log>(rt: &R, log: &L, end: &End<'_>) -> ExitCode
    ensures status { IsEnd end.now (exit_status result) }
{
    match end {
        End::Ran(outcome) => ended(rt, outcome),
        End::Refused(bad) => refused(rt, log, bad),
    }
}
