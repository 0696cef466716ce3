//! The network server's program.
//!
//! `lorawan_ns replay ROSTER` reads step lines from standard input and writes the lines of their answers to standard output. The
//! contract of `replay` in `ns_replay` says what is written. `lorawan_ns serve ROSTER --join ADDR` hears gateways over UDP and writes
//! their uplinks: `serve` of `ns_serve` does it, with threads and sockets. `lorawan_ns compact ROSTER DIR` makes a record shorter:
//! `ns_upkeep` does it, and while `serve` goes on; it also does `lorawan_ns check ROSTER`, which says what a start would refuse. Here is what a run does: what the words ask for, as `ns_words` reads them. `replay`, the
//! texts of faults, log lines and the exit statuses are those of `ns_commands`. The program stands on these, on `ns_serve` and
//! `ns_serve_shards`, on `ns_record_files` for the upkeep of a record, on `ns_roster`, on `ns_types` for streams, on `ns_log` for log
//! lines, and on `log` of the kit, which takes them.
#![tactic(auto)]

ghost use Rattle.std.specs.Prelude.{IfOk, map, string_bytes};
ghost use Rattle.std.specs.Arc.{arc_value};
ghost use Rattle.ns_serve_shards.specs.Begun.{IsBegun};
ghost use Rattle.ns_words.specs.Asked.{IsServed};
ghost use Rattle.ns_commands.specs.Status.{IsRun};

use log::filter::FilteredLog;
use ns_commands::{
    End, Fault, Logging, Timed, VARIABLE, concluded, ended, kept_record, of_record, of_serve,
    open_record, read_filter, read_roster, run_replay, words,
};
use ns_log::{Log, error};
use ns_record_files::Upkeep;
use ns_roster::Roster;
use ns_serve::{Begun, EndOfInput, ServeOptions, Stop, SystemFiles, WaitingWriter, serve};
use ns_types::OverStd;
use ns_upkeep::{check, compact, keeper, recover};
use ns_words::{Asked, Recorded, read_words};
use std::fs::{File, OpenOptions};
use std::io;
use std::net::{Net, TcpListener, TcpStream};
use std::os::fd::{AsRawFd, IntoRawFd};
use std::process::ExitCode;
use std::rt::Files;
use std::sync::{Arc, Wait};
use std::thread::Threads;
use std::time::Clock;

// With what a server begins: the record of a folder, if one is given.
fn begin<R: Files<File = File> + AllocGlobal, L: Log>(
    rt: &R,
    log: &L,
    roster: &Arc<Roster>,
    record: Recorded<'_>,
) -> Result<Begun, Fault<'static>>
    ensures { IfOk result (IsBegun (arc_value roster.now)) }
{
    let alloc = rt.alloc();
    let Some(folder) = record.folder else {
        return match Begun::new(alloc, roster) {
            Ok(begun) => Ok(begun),
            Err(_) => {
                error!(log; "no memory for the shards");
                Err(Fault::NoMemory)
            }
        };
    };
    let files = open_record(rt, log, folder, record.sync)?;
    match Begun::resume(log, alloc, roster, files) {
        Ok(begun) => return Ok(begun),
        Err(fault) => recover(rt, log, folder, roster, fault)?,
    }
    let files = open_record(rt, log, folder, record.sync)?;
    match Begun::resume(log, alloc, roster, files) {
        Ok(begun) => Ok(begun),
        Err(fault) => {
            error!(log; "{folder}: {fault}");
            Err(of_record(fault))
        }
    }
}

// Serves gateways, over the roster of this file, which may be read already.
fn run_serve<'a, R, L, S, U>(
    rt: &R,
    log: &L,
    path: &'a str,
    known: Option<Arc<Roster>>,
    options: &ServeOptions<'_>,
    record: Recorded<'_>,
    stop: S,
    upkeep: U,
) -> Result<(), Fault<'a>>
where
    R: Files<File = File> + AllocGlobal + Print + Sync,
    S: Stop + Send + Drop + 'static,
    U: Upkeep + Send + Drop,
    L: Threads + Wait + Clock + Log + Sync,
    L: Net<Listener = TcpListener, Stream = TcpStream>,
    requires { IsServed options.now }
{
    let roster = match known {
        Some(roster) => roster,
        None => read_roster(rt, log, path)?,
    };
    let begun = begin(rt, log, &roster, record)?;
    let writer = OverStd::new(WaitingWriter::new(log, io::writer(rt)));
    let alloc = rt.alloc();
    let system = SystemFiles::open(rt);
    of_serve(serve(
        log, alloc, roster, options, begun, system, stop, upkeep, writer,
    ))
}

// Does what the words ask for.
fn run<'a, R, L, S, U>(
    rt: &R,
    log: &L,
    words: &'a [String],
    known: Option<Arc<Roster>>,
    stop: S,
    upkeep: U,
) -> End<'a>
where
    R: Files<File = File> + AllocGlobal + Input + Print + Sync,
    S: Stop + Send + Drop + 'static,
    U: Upkeep + Send + Drop,
    L: Threads + Wait + Clock + Log + Sync,
    L: Net<Listener = TcpListener, Stream = TcpStream>,
    ensures { IsRun (map string_bytes words.now) result }
{
    match read_words(rt.alloc(), words) {
        Ok(Asked::Replay(path, uplinks, closing)) => {
            End::Ran(run_replay(rt, log, path, uplinks, closing))
        }
        Ok(Asked::Check(path, folder)) => End::Ran(check(rt, log, path, folder)),
        Ok(Asked::Serve(path, options, record)) => End::Ran(run_serve(
            rt, log, path, known, &options, record, stop, upkeep,
        )),
        Ok(Asked::Compact(path, folder)) => End::Ran(compact(rt, log, path, folder)),
        Err(bad) => End::Refused(bad),
    }
}

// Opens `/dev/null`, and leaves it open where its number is at most this one.
fn hold_null<R: Files<File = File>>(rt: &R, how: &OpenOptions, most: i32) {
    if let Ok(null) = how.open(rt, "/dev/null") {
        if null.as_raw_fd() <= most {
            let _ = null.into_raw_fd();
        }
    }
}

// Puts `/dev/null` in the place of standard input, output and error where they are closed: else a file that is opened later, as one of a
// record, would get that number, and what is printed. To read or write there fails, as where it is closed.
fn fill_closed<R: Files<File = File>>(rt: &R) {
    let mut how = OpenOptions::new();
    how.write(true);
    hold_null(rt, &how, 0);
    how.write(false).read(true);
    hold_null(rt, &how, 2);
    hold_null(rt, &how, 2);
}

fn main(rt: HostRuntime) -> ExitCode {
    fill_closed(&rt);
    let Ok(filter) = read_filter(&rt) else {
        error!(Logging::new(&rt, Timed(&rt)); "no memory for the value of {VARIABLE}");
        return ended(&rt, &Err(Fault::NoMemory));
    };
    let log = Logging::new(&rt, FilteredLog::new(Timed(&rt), filter));
    match words(&rt) {
        Ok(words) => {
            let (words, stop) = (words.as_slice(), EndOfInput::new(rt));
            let end = match kept_record(&rt, &log, words) {
                Ok((kept, known)) => {
                    let upkeep = keeper(&rt, &log, &kept);
                    run(&rt, &log, words, known, stop, upkeep)
                }
                Err(end) => end,
            };
            concluded(&rt, &log, &end)
        }
        Err(bad) => concluded(&rt, &log, &End::Refused(bad)),
    }
}
