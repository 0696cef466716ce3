//! The record of a folder with which no server goes on, made shorter.

use crate::rows::holds;
use crate::worked::{ASKED, BASE, CHECKPOINT, TORN, TORN_UP, roster_of};
use ns_compact::Folder;
use ns_device::worked::{CLOSE, CONFIRMED, JOIN, KEPT_ANSWER, ROSTER, UP};
use ns_log::Discard;
use ns_record_files::RecordFiles;
use ns_resume::RecordFault;
use std::alloc::{AllocError, Global};
use std::fs::File;
use std::io::Read;
use std::rt::Files;
use std::{fs, io};

/// The folder of a record, and its files: steps, `up` lines, and fewer steps while they are written.
#[derive(Clone, Copy)]
pub struct Place {
    pub folder: &'static str,
    pub steps: &'static str,
    pub up: &'static str,
    pub new: &'static str,
}

/// The place of a folder of this name.
#[macro_export]
macro_rules! place {
    ($name:literal) => {
        $crate::folder::Place {
            folder: $name,
            steps: concat!($name, "/steps"),
            up: concat!($name, "/up"),
            new: concat!($name, "/steps.new"),
        }
    };
}

/// These lines as bytes.
pub fn text_of(alloc: Global, parts: &[&str]) -> Result<Vec<u8>, AllocError> {
    let mut text = Vec::new(alloc);
    for part in parts {
        text.extend_from_slice(part.as_bytes())?;
    }
    Ok(text)
}

/// The bytes of a file.
pub fn bytes_of<R: Files<File = File> + AllocGlobal>(rt: &R, path: &str) -> io::Result<Vec<u8>> {
    let mut bytes = Vec::new(rt.alloc());
    File::open(rt, path)?.read_to_end(&mut bytes)?;
    Ok(bytes)
}

// Makes a file of these lines.
fn put<R: Files<File = File> + AllocGlobal>(rt: &R, path: &str, parts: &[&str]) -> io::Result<()> {
    let text = text_of(rt.alloc(), parts)?;
    fs::write(rt, path, text.as_slice())
}

/// Makes a folder with a record of these lines.
pub fn make<R: Files<File = File> + AllocGlobal>(
    rt: &R,
    place: &Place,
    steps: &[&str],
    ups: &[&str],
) -> io::Result<()> {
    let _ = fs::remove_dir_all(rt, place.folder);
    fs::create_dir(rt, place.folder)?;
    put(rt, place.steps, steps)?;
    put(rt, place.up, ups)
}

// Whether bytes are these lines.
fn are_lines(bytes: &[u8], parts: &[&str]) -> bool {
    let mut rest = bytes;
    for part in parts {
        match rest.strip_prefix(part.as_bytes()) {
            Some(more) => rest = more,
            None => return false,
        }
    }
    rest.is_empty()
}

// Whether a file has these lines.
fn has_lines<R: Files<File = File> + AllocGlobal>(
    rt: &R,
    path: &str,
    parts: &[&str],
) -> io::Result<bool> {
    let bytes = bytes_of(rt, path)?;
    Ok(are_lines(bytes.as_slice(), parts))
}

/// Whether the files of a folder have these lines, and those of a compaction are gone. Then the folder is taken away.
pub fn has<R: Files<File = File> + AllocGlobal>(
    rt: &R,
    place: &Place,
    steps: &[&str],
    ups: &[&str],
) -> io::Result<bool> {
    let is_so = has_lines(rt, place.steps, steps)? && has_lines(rt, place.up, ups)?;
    let is_there = fs::exists(rt, place.new)?;
    fs::remove_dir_all(rt, place.folder)?;
    Ok(is_so && !is_there)
}

// Makes the record of a folder shorter. How many lines it had, and how many it has.
fn compacted<R: Files<File = File> + AllocGlobal>(
    rt: &R,
    path: &str,
) -> Result<(u64, u64), RecordFault> {
    let alloc = rt.alloc();
    let roster = roster_of(alloc, ROSTER)?;
    let Ok(files) = RecordFiles::open(rt, &Discard, alloc, path, true) else {
        return Err(RecordFault::Io);
    };
    let folder = Folder {
        rt,
        log: &Discard,
        alloc,
        path,
        roster: &roster,
    };
    let done = folder.compact(files)?;
    Ok((done.before, done.after))
}

// A record's steps and `up` lines, what its compaction gives, and its steps and `up` lines then.
type Row = (
    &'static [&'static str],
    &'static [&'static str],
    Result<(u64, u64), RecordFault>,
    &'static [&'static str],
    &'static [&'static str],
);

// Steps behind a base that tells of 80 bytes of `up` lines.
const OF_80: &[&str] = &[
    "base 0000000000000004 0000000000000050\n",
    JOIN,
    KEPT_ANSWER,
    CONFIRMED,
    CLOSE,
];

const ROWS: &[Row] = &[
    // A checkpoint is in the place of the steps, incomplete ends are gone, the missing `up` line is there, and the lines are counted.
    (
        &[JOIN, KEPT_ANSWER, CONFIRMED, CLOSE, ASKED, "x\n", TORN],
        &[TORN_UP],
        Ok((6, 19)),
        &[CHECKPOINT],
        &[UP],
    ),
    // So it is of a record that has a checkpoint or a base, with and without steps after it.
    (
        &[CHECKPOINT, ASKED, "x\n"],
        &[UP],
        Ok((2, 19)),
        &[CHECKPOINT],
        &[UP],
    ),
    (
        &[BASE, JOIN, KEPT_ANSWER, CONFIRMED, CLOSE],
        &[UP],
        Ok((4, 19)),
        &[CHECKPOINT],
        &[UP],
    ),
    // A record whose `up` lines end, or go on, where its base tells of another number of bytes stays as it is.
    (OF_80, &[UP], Err(RecordFault::UpShorter(80)), OF_80, &[UP]),
    (
        OF_80,
        &[UP, UP],
        Err(RecordFault::UpShorter(80)),
        OF_80,
        &[UP, UP],
    ),
];

// Whether the compaction of a record does what its row says.
fn is_so<R: Files<File = File> + AllocGlobal>(rt: &R, row: &Row) -> io::Result<bool> {
    let place = place!("test_records_folder");
    let (steps, ups, wanted, steps_then, ups_then) = *row;
    make(rt, &place, steps, ups)?;
    let done = compacted(rt, place.folder);
    Ok(has(rt, &place, steps_then, ups_then)? && done == wanted)
}

/// A record is made shorter, or stays as it is, by the rows above.
#[test]
fn records_are_made_shorter(rt: HostRuntime) {
    let mut number = 1;
    for row in ROWS {
        number = holds(&rt, matches!(is_so(&rt, row), Ok(true)), number);
    }
}
