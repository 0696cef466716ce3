//! The texts of faults and of times, how runs end, and the exit statuses.

use crate::stand_in::StandIn;
use crate::words::words_of;
use ns_commands::{
    End, Fault, concluded, ended, of_reading, of_replay, of_roster, of_serve, read_roster, refused,
    run_replay, time_text,
};
use ns_log::Discard;
use ns_replay::ReplayFault;
use ns_roster::RosterFault;
use ns_serve_parts::ServeFault;
use ns_upkeep::{check, compact};
use ns_words::{Asked, BadWords, read_words};
use std::alloc::Global;
use std::fs::File;
use std::io::ErrorKind;
use std::process::ExitCode;
use std::rt::Files;
use std::time::Duration;

// Whether a fault is printed so.
fn is_printed(alloc: Global, fault: &Fault<'_>, text: &str) -> bool {
    match format!(in alloc; "{fault}") {
        Ok(printed) => printed.as_str() == text,
        Err(_) => false,
    }
}

// Whether this is a fault that is printed so.
fn fails_so(alloc: Global, outcome: &Result<(), Fault<'_>>, text: &str) -> bool {
    match outcome {
        Ok(()) => false,
        Err(fault) => is_printed(alloc, fault, text),
    }
}

#[test]
fn faults_are_printed(rt: HostRuntime) {
    let path = "a/b.json";
    for (fault, text) in [
        (of_roster(RosterFault::NotJson), "roster: O1"),
        (of_roster(RosterFault::TooMany), "roster: O6"),
        (of_roster(RosterFault::NoMemory), "no memory"),
        (
            of_reading(ErrorKind::NotFound, path),
            "cannot read a/b.json",
        ),
        (of_reading(ErrorKind::OutOfMemory, path), "no memory"),
    ] {
        assert!(rt; is_printed(rt.alloc(), &fault, text), "{text}");
    }
}

#[test]
fn faults_of_runs_are_printed(rt: HostRuntime) {
    for (outcome, text) in [
        (of_replay(Err(ReplayFault::NoMemory)), "no memory"),
        (of_replay(Err(ReplayFault::Io)), "io"),
        (of_serve(Err(ServeFault::NoMemory)), "no memory"),
        (of_serve(Err(ServeFault::Io)), "io"),
    ] {
        assert!(rt; fails_so(rt.alloc(), &outcome, text), "{text}");
    }
    assert!(rt; of_replay(Ok(())).is_ok() && of_serve(Ok(0)).is_ok());
}

// The expected texts are those of `date -u --iso-8601` at these seconds.
#[test]
fn times(rt: HostRuntime) {
    for (seconds, nanos, wanted) in [
        (0, 0, "1970-01-01T00:00:00.000Z"),
        (1_795_512_600, 125_999_999, "2026-11-24T09:30:00.125Z"),
        (1_709_164_800, 7_000_000, "2024-02-29T00:00:00.007Z"),
    ] {
        let text = time_text(Duration::new(seconds, nanos));
        let Some(text) = text else {
            continue;
        };
        assert!(rt; text.as_str() == wanted);
    }
    assert!(rt; time_text(Duration::new(1_795_512_600, 0)).is_some());
    assert!(rt; time_text(Duration::new(253_402_300_800, 0)).is_none());
}

#[test]
fn statuses(rt: HostRuntime) {
    assert!(rt; ended(&rt, &Ok(())) == ExitCode::SUCCESS);
    for fault in [
        Fault::Roster(RosterFault::Field),
        Fault::NoMemory,
        Fault::CannotRead("a"),
        Fault::Io,
    ] {
        assert!(rt; ended(&rt, &Err(fault)) == ExitCode::FAILURE);
    }
    assert!(rt; refused(&rt, &Discard, &BadWords::NoMemory) == ExitCode::from(1));
    assert!(rt; refused(&rt, &Discard, &BadWords::NotText) == ExitCode::from(2));
}

// How the program ends with these words, whose roster is not there. A server is not begun.
fn end_of<'a, R: Files<File = File> + AllocGlobal + Input + Print>(
    rt: &R,
    words: &'a [String],
) -> End<'a> {
    match read_words(rt.alloc(), words) {
        Ok(Asked::Replay(path, uplinks, closing)) => {
            End::Ran(run_replay(rt, &Discard, path, uplinks, closing))
        }
        Ok(Asked::Serve(path, _, _)) => match read_roster(rt, &Discard, path) {
            Ok(_) => End::Ran(Ok(())),
            Err(fault) => End::Ran(Err(fault)),
        },
        Ok(Asked::Check(path, folder)) => End::Ran(check(rt, &Discard, path, folder)),
        Ok(Asked::Compact(path, folder)) => End::Ran(compact(rt, &Discard, path, folder)),
        Err(bad) => End::Refused(bad),
    }
}

// The status with which the program ends with the words of a text.
fn status_of<R: Files<File = File> + AllocGlobal + Input + Print + Eprint>(
    rt: &R,
    text: &str,
) -> Option<ExitCode> {
    let words = words_of(rt.alloc(), text, &[]).ok()?;
    let end = end_of(rt, words.as_slice());
    Some(concluded(rt, &Discard, &end))
}

// A run whose roster is not there ends with status 1, also one that is to serve, and one of bad words with 2.
const STATUSES: [(&str, u8); 5] = [
    ("lorawan_ns check no/such/roster.json", 1),
    ("lorawan_ns replay no/such/roster.json --closing", 1),
    ("lorawan_ns serve no/such/roster.json --join 127.0.0.1:9", 1),
    ("lorawan_ns compact no/such/roster.json no/such", 1),
    ("lorawan_ns replay", 2),
];

#[test]
fn runs_that_fail(rt: HostRuntime) {
    let stand_in = StandIn::new(rt, b"");
    for (text, status) in STATUSES {
        assert!(rt;
            status_of(&stand_in, text) == Some(ExitCode::from(status)),
            "{text}"
        );
    }
}
