//! The record of a server that runs: where its steps have grown much, fewer take their place.

use crate::folder::{Place, bytes_of, make, text_of};
use crate::place;
use crate::worked::{ASKED, BASE, CHECKPOINT, roster_of};
use ns_compact::{Folder, Keeper};
use ns_device::logged::{Kept, Lines};
use ns_device::worked::{CLOSE, CONFIRMED, JOIN, KEPT_ANSWER, ROSTER, UNKNOWN, UP};
use ns_record_files::{RecordFiles, RecordWriter, Recorder, Upkeep};
use std::alloc::{AllocError, Global};
use std::fs::File;
use std::rt::Files;
use std::sync::Wait;
use std::{fs, io};

// What stands in an answer again and again: no JSON, so the join fails.
const TEXT: [u8; 1024] = [b'x'; 1024];

// From how many bytes on fewer steps take the place.
const MANY: usize = 4_194_304;

// A record whose keeper looks after it.
#[derive(Clone, Copy)]
struct Grown<'a> {
    place: Place,
    // Steps that it has for so many looks, one after the other, and that are to stay as they are.
    before: &'a [(&'a [u8], u32)],
    // Those that it has then, for two looks.
    steps: &'a [u8],
    // Lines that come behind these while fewer are chosen.
    later: &'a str,
    // Whether the server stops.
    rests: bool,
}

// Lines come behind the steps. The record still has the file without them, so its keeper reads no further, as where they come after it
// looked.
fn come<R: Files<File = File> + AllocGlobal>(rt: &R, path: &str, later: &str) -> io::Result<()> {
    let mut steps = bytes_of(rt, path)?;
    steps.extend_from_slice(later.as_bytes())?;
    fs::remove_file(rt, path)?;
    fs::write(rt, path, steps.as_slice())
}

// A keeper looks after these steps so many times.
fn look<R: Files<File = File> + Wait + AllocGlobal>(
    rt: &R,
    path: &str,
    steps: &[u8],
    later: &str,
    looks: u32,
    keeper: &mut Keeper<'_, R, Lines<'_, R>>,
    record: &Recorder<RecordFiles>,
) -> io::Result<()> {
    fs::write(rt, path, steps)?;
    if !later.is_empty() {
        come(rt, path, later)?;
    }
    for _look in 0..looks {
        keeper.look_after(record);
    }
    Ok(())
}

// Whether a file has these bytes.
fn has_bytes<R: Files<File = File> + AllocGlobal>(
    rt: &R,
    path: &str,
    bytes: &[u8],
) -> io::Result<bool> {
    let there = bytes_of(rt, path)?;
    Ok(there.as_slice() == bytes)
}

// A keeper looks after all that a record has. Whether the steps that are to stay have stayed.
fn look_at_all<R: Files<File = File> + Wait + AllocGlobal>(
    rt: &R,
    grown: &Grown<'_>,
    keeper: &mut Keeper<'_, R, Lines<'_, R>>,
    record: &Recorder<RecordFiles>,
) -> io::Result<bool> {
    let path = grown.place.steps;
    for &(steps, looks) in grown.before {
        look(rt, path, steps, "", looks, keeper, record)?;
        if !has_bytes(rt, path, steps)? {
            return Ok(false);
        }
    }
    look(rt, path, grown.steps, grown.later, 2, keeper, record)?;
    Ok(true)
}

// The files of a record, to be added to, or at rest.
fn recorder<R: Files<File = File> + Wait>(
    rt: &R,
    log: &Lines<'_, R>,
    alloc: Global,
    grown: &Grown<'_>,
) -> Option<Recorder<RecordFiles>> {
    let files = RecordFiles::open(rt, log, alloc, grown.place.folder, false).ok()?;
    let record = Recorder::new(alloc, RecordWriter::new(files)).ok()?;
    if grown.rests {
        record.rest();
    }
    Some(record)
}

// A keeper looks after all that a record has. None where steps did not stay that were to.
fn keep<R: Files<File = File> + Wait + AllocGlobal>(
    rt: &R,
    log: &Lines<'_, R>,
    grown: &Grown<'_>,
) -> Option<()> {
    let alloc = rt.alloc();
    let roster = roster_of(alloc, ROSTER).ok()?;
    let record = recorder(rt, log, alloc, grown)?;
    let mut keeper = Keeper::new(Folder {
        rt,
        log,
        alloc,
        path: grown.place.folder,
        roster: &roster,
    });
    match look_at_all(rt, grown, &mut keeper, &record) {
        Ok(true) => Some(()),
        _ => None,
    }
}

// What was logged where the keeper of a record leaves these steps.
fn log_of<R: Files<File = File> + Wait + AllocGlobal>(
    rt: &R,
    grown: &Grown<'_>,
    wanted: &[u8],
) -> Option<Vec<u8>> {
    make(rt, &grown.place, &[], &[UP]).ok()?;
    let log = Lines::new(rt, rt.alloc(), Kept::All, 0).ok()?;
    keep(rt, &log, grown)?;
    let is_so = has_bytes(rt, grown.place.steps, wanted).ok()?;
    fs::remove_dir_all(rt, grown.place.folder).ok()?;
    if is_so { Some(log.into_lines()) } else { None }
}

// Adds a join that failed, of a little more than 64 KiB.
fn put_join(steps: &mut Vec<u8>) -> Result<(), AllocError> {
    steps.extend_from_slice(ASKED.as_bytes())?;
    for _ in 0..64 {
        steps.extend_from_slice(&TEXT)?;
    }
    steps.extend_from_slice(b"\n")
}

// Steps of a join and an uplink, behind a base, and of so many joins that failed.
fn joins(alloc: Global, base: &str, count: usize) -> Result<Vec<u8>, AllocError> {
    let mut steps = text_of(alloc, &[base, JOIN, KEPT_ANSWER, CONFIRMED, CLOSE])?;
    for _ in 0..count {
        put_join(&mut steps)?;
    }
    Ok(steps)
}

// Whether a record of so many joins stays as it is, which is shorter than 4 MiB just where the server does not stop.
fn stays<R: Files<File = File> + Wait + AllocGlobal>(
    rt: &R,
    place: Place,
    count: usize,
    rests: bool,
) -> Option<bool> {
    let steps = joins(rt.alloc(), "", count).ok()?;
    let grown = Grown {
        place,
        before: &[],
        steps: steps.as_slice(),
        later: "",
        rests,
    };
    let log = log_of(rt, &grown, steps.as_slice())?;
    drop(log);
    Some((steps.len() < MANY) != rests)
}

/// Steps of less than 4 MiB stay as they are, and those of a server that stops.
#[test]
fn others_stay(rt: HostRuntime) {
    assert!(rt; stays(&rt, place!("test_records_small"), 63, false) == Some(true));
    assert!(rt; stays(&rt, place!("test_records_rests"), 64, true) == Some(true));
}

// What was logged where a record that has grown becomes small.
fn log_of_grown<R: Files<File = File> + Wait + AllocGlobal>(rt: &R) -> Option<Vec<u8>> {
    let steps = joins(rt.alloc(), BASE, 64).ok()?;
    let wanted = text_of(rt.alloc(), &[CHECKPOINT, CONFIRMED]).ok()?;
    let grown = Grown {
        place: place!("test_records_grown"),
        before: &[],
        steps: steps.as_slice(),
        later: CONFIRMED,
        rests: false,
    };
    log_of(rt, &grown, wanted.as_slice())
}

/// Those of 4 MiB behind what a compaction left become few, once, and lines that come in the meantime follow them.
#[test]
fn grown_records_become_small(rt: HostRuntime) {
    let wanted = b"[INFO  ns_compact::keeper] record: compacted 132 19\n";
    let is_so = match log_of_grown(&rt) {
        Some(log) => log.as_slice() == wanted.as_slice(),
        None => false,
    };
    assert!(rt; is_so);
}

// The Join-Request of a device that the roster does not have, which fits no record, and these bytes.
fn unfit(alloc: Global, steps: &[u8]) -> Result<Vec<u8>, AllocError> {
    let mut unfit = text_of(alloc, &[UNKNOWN])?;
    unfit.extend_from_slice(steps)?;
    Ok(unfit)
}

// What was logged where a record stays as it is at first, and becomes small later: it cannot be done at the first look and at the 61st, and
// is not tried at others before the 181st.
fn log_of_unfit<R: Files<File = File> + Wait + AllocGlobal>(
    rt: &R,
    steps: &[u8],
) -> Option<Vec<u8>> {
    let unfit = unfit(rt.alloc(), steps).ok()?;
    let wanted = text_of(rt.alloc(), &[CHECKPOINT]).ok()?;
    let grown = Grown {
        place: place!("test_records_unfit"),
        before: &[
            (unfit.as_slice(), 1),
            (steps, 59),
            (unfit.as_slice(), 1),
            (steps, 119),
        ],
        steps,
        later: "",
        rests: false,
    };
    log_of(rt, &grown, wanted.as_slice())
}

// What is logged then.
const LOG_OF_UNFIT: &str =
    "[ERROR ns_compact::keeper] test_records_unfit: not compacted: record: line 1 does not fit the roster, 1 in a row
[ERROR ns_compact::keeper] test_records_unfit: not compacted: record: line 1 does not fit the roster, 2 in a row
[INFO  ns_compact::keeper] record: compacted 132 19
";

/// Where it cannot be done they stay as they are, an error is logged, and it is tried again after a minute of looks, then after two.
#[test]
fn unfit_records_are_tried_again(rt: HostRuntime) {
    let is_so = match joins(rt.alloc(), "", 64) {
        Ok(steps) => match log_of_unfit(&rt, steps.as_slice()) {
            Some(log) => log.as_slice() == LOG_OF_UNFIT.as_bytes(),
            None => false,
        },
        Err(_) => false,
    };
    assert!(rt; is_so);
}
