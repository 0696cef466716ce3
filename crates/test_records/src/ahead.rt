//! `up` lines of a folder that are ahead of its steps.

use crate::folder::{has, make};
use crate::place;
use crate::rows::holds;
use crate::worked::{BASE, CHECKPOINT, TORN, TORN_UP, roster_of};
use ns_compact::Folder;
use ns_device::worked::{CLOSE, CONFIRMED, JOIN, KEPT_ANSWER, ROSTER, UP};
use ns_log::Discard;
use ns_record_files::RecordFiles;
use ns_resume::RecordFault;
use std::fs::File;
use std::io;
use std::rt::Files;

// Lets the steps of a folder catch up.
fn recovered<R: Files<File = File> + AllocGlobal>(rt: &R, path: &str) -> Result<(), RecordFault> {
    let alloc = rt.alloc();
    let roster = roster_of(alloc, ROSTER)?;
    let Ok(files) = RecordFiles::open(rt, &Discard, alloc, path, true) else {
        return Err(RecordFault::Io);
    };
    let folder = Folder {
        rt,
        log: &Discard,
        alloc,
        path,
        roster: &roster,
    };
    folder.recover(files)
}

// Steps and `up` lines, and the steps and the `up` lines that are there then.
type Row = (
    &'static [&'static str],
    &'static [&'static str],
    &'static [&'static str],
    &'static [&'static str],
);

const ROWS: &[Row] = &[
    // The window is open: it is closed.
    (&[JOIN, KEPT_ANSWER, CONFIRMED], &[UP], &[CHECKPOINT], &[UP]),
    // No step tells the uplink.
    (
        &[JOIN, KEPT_ANSWER, TORN],
        &[UP, TORN_UP],
        &[CHECKPOINT],
        &[UP],
    ),
    // The base has the line already, or the checkpoint.
    (
        &[BASE, JOIN, KEPT_ANSWER, CONFIRMED, CLOSE],
        &[UP, TORN_UP],
        &[CHECKPOINT],
        &[UP],
    ),
    (&[CHECKPOINT], &[UP, TORN_UP], &[CHECKPOINT], &[UP]),
];

// Whether a record becomes what its row says.
fn is_so<R: Files<File = File> + AllocGlobal>(rt: &R, row: &Row) -> io::Result<bool> {
    let place = place!("test_records_ahead");
    let (steps, ups, steps_then, ups_then) = *row;
    make(rt, &place, steps, ups)?;
    let is_done = recovered(rt, place.folder).is_ok();
    Ok(has(rt, &place, steps_then, ups_then)? && is_done)
}

/// The steps catch up with the `up` lines, by the rows above.
#[test]
fn steps_catch_up(rt: HostRuntime) {
    let mut number = 1;
    for row in ROWS {
        number = holds(&rt, matches!(is_so(&rt, row), Ok(true)), number);
    }
}
