//! Why the program ends early, and the status that it ends with.

ghost use Rattle.std.specs.Prelude.{◌≡◌, ◌≢◌, Err, IsOk, IsErr};
ghost use Rattle.std.specs.Process.{exit_status};
ghost use Rattle.ns_roster.specs.declared.fault.RosterFault.TheVariants as roster;
ghost use Rattle.ns_replay.specs.declared.run.ReplayFault.TheVariants as replay;
ghost use Rattle.ns_serve_parts.specs.declared.options.ServeFault.TheVariants as serve;
ghost use Rattle.ns_record_files.specs.declared.files.FilesFault.TheVariants as files;
ghost use Rattle.ns_resume.specs.declared.fault.RecordFault.TheVariants as lines;

use ns_record_files::FilesFault;
use ns_replay::ReplayFault;
use ns_resume::RecordFault;
use ns_roster::RosterFault;
use ns_serve_parts::ServeFault;
use std::io::ErrorKind;
use std::process::ExitCode;
use thiserror::Error;

/// A fault that is written to standard error; the exit status is then 1.
#[derive(Debug, Drop, Error)]
pub enum Fault<'a> {
    /// The roster's file is no roster.
    #[error("roster: {0}")]
    Roster(RosterFault),
    /// A growth was refused.
    #[error("no memory")]
    NoMemory,
    /// A file that could not be read, by its path as it was given.
    #[error("cannot read {0}")]
    CannotRead(&'a str),
    /// Standard input or output failed, or the socket or the record did.
    #[error("io")]
    Io,
    /// The files of the record could not be had.
    #[error("{0}")]
    Files(FilesFault),
    /// The record is not one that this roster can go on with.
    #[error("{0}")]
    Record(RecordFault),
}

/// The fault of a file that could not be read.
pub fn of_reading(kind: ErrorKind, path: &str) -> Fault<'_>
    ensures memory { kind ≡ ErrorKind.OutOfMemory → result ≡ Fault.NoMemory }
    ensures other { kind ≢ ErrorKind.OutOfMemory → result ≡ Fault.CannotRead path.entry }
{
    if kind == ErrorKind::OutOfMemory {
        Fault::NoMemory
    } else {
        Fault::CannotRead(path)
    }
}

/// The fault of bytes that are no roster.
pub fn of_roster(fault: RosterFault) -> Fault<'static>
    ensures memory { fault ≡ roster.NoMemory → result ≡ Fault.NoMemory }
    ensures other { fault ≢ roster.NoMemory → result ≡ Fault.Roster fault }
{
    match fault {
        RosterFault::NoMemory => Fault::NoMemory,
        fault => Fault::Roster(fault),
    }
}

/// What becomes of a run of `replay`: where that failed, its fault.
pub fn of_replay(outcome: Result<(), ReplayFault>) -> Result<(), Fault<'static>>
    ensures done { IsOk outcome → IsOk result }
    ensures memory { outcome ≡ Err replay.NoMemory → result ≡ Err Fault.NoMemory }
    ensures io { outcome ≡ Err replay.Io → result ≡ Err Fault.Io }
{
    match outcome {
        Ok(()) => Ok(()),
        Err(ReplayFault::NoMemory) => Err(Fault::NoMemory),
        Err(ReplayFault::Io) => Err(Fault::Io),
    }
}

/// What becomes of serving: where that failed, its fault.
pub fn of_serve(outcome: Result<u128, ServeFault>) -> Result<(), Fault<'static>>
    ensures done { IsOk outcome → IsOk result }
    ensures memory { outcome ≡ Err serve.NoMemory → result ≡ Err Fault.NoMemory }
    ensures io { outcome ≡ Err serve.Io → result ≡ Err Fault.Io }
{
    match outcome {
        Ok(_) => Ok(()),
        Err(ServeFault::NoMemory) => Err(Fault::NoMemory),
        Err(ServeFault::Io) => Err(Fault::Io),
    }
}

/// The fault of the files of a record.
pub fn of_files(fault: FilesFault) -> Fault<'static>
    ensures memory { fault ≡ files.NoMemory → result ≡ Fault.NoMemory }
    ensures other { fault ≢ files.NoMemory → result ≡ Fault.Files fault }
{
    match fault {
        FilesFault::NoMemory => Fault::NoMemory,
        fault => Fault::Files(fault),
    }
}

/// The fault of the lines of a record.
pub fn of_record(fault: RecordFault) -> Fault<'static>
    ensures memory { fault ≡ lines.NoMemory → result ≡ Fault.NoMemory }
    ensures other { fault ≢ lines.NoMemory → result ≡ Fault.Record fault }
{
    match fault {
        RecordFault::NoMemory => Fault::NoMemory,
        fault => Fault::Record(fault),
    }
}

/// The status that the program ends with after what was asked for: 0 where it was done, 1 after a fault.
pub fn status_of(outcome: &Result<(), Fault>) -> ExitCode
    ensures done { IsOk outcome.now → exit_status result ≡ 0 }
    ensures failed { IsErr outcome.now → exit_status result ≡ 1 }
{
    match outcome {
        Ok(()) => ExitCode::SUCCESS,
        Err(_) => ExitCode::from(1),
    }
}
