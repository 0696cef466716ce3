//! The record of a folder, made shorter.

use ns_commands::{Fault, Kept, of_record, open_record, read_roster};
use ns_compact::{Compacted, Folder, Keeper};
use ns_log::{Log, error};
use ns_resume::RecordFault;
use ns_roster::Roster;
use std::fs::File;
use std::rt::Files;
use std::sync::{Arc, Wait};

/// What keeps a record short while a server goes on with it, if there is one.
pub fn keeper<'a, R: Files<File = File> + Wait + AllocGlobal, L: Log>(
    rt: &'a R,
    log: &'a L,
    kept: &'a Option<Kept<'a>>,
) -> Option<Keeper<'a, R, L>> {
    let Some(kept) = kept else {
        return None;
    };
    Some(Keeper::new(folder_of(rt, log, kept.folder, &kept.roster)))
}

// Why a record was not made shorter, which is logged.
fn refused<L: Log>(log: &L, folder: &str, fault: RecordFault) -> Fault<'static> {
    error!(log; "{folder}: {fault}");
    of_record(fault)
}

/// What comes of a record after this fault. If its `up` lines are ahead of its steps, as the end of the machine may leave them without
/// `--sync`, the steps catch up, and the record may be opened again. Any other fault is logged, and is the program's.
pub fn recover<R: Files<File = File> + AllocGlobal, L: Log>(
    rt: &R,
    log: &L,
    folder: &str,
    roster: &Arc<Roster>,
    fault: RecordFault,
) -> Result<(), Fault<'static>> {
    if !matches!(fault, RecordFault::UpLonger(_)) {
        return Err(refused(log, folder, fault));
    }
    let files = open_record(rt, log, folder, true)?;
    match folder_of(rt, log, folder, roster).recover(files) {
        Ok(()) => Ok(()),
        Err(fault) => Err(refused(log, folder, fault)),
    }
}

// What a compaction of this folder works with.
fn folder_of<'a, R: Files<File = File> + AllocGlobal, L: Log>(
    rt: &'a R,
    log: &'a L,
    path: &'a str,
    roster: &'a Arc<Roster>,
) -> Folder<'a, R, L> {
    Folder {
        rt,
        log,
        alloc: rt.alloc(),
        path,
        roster,
    }
}

// Makes the record of a folder shorter.
fn shorten<R: Files<File = File> + AllocGlobal, L: Log>(
    rt: &R,
    log: &L,
    folder: &str,
    roster: &Arc<Roster>,
) -> Result<Compacted, Fault<'static>> {
    let compaction = folder_of(rt, log, folder, roster);
    let files = open_record(rt, log, folder, true)?;
    match compaction.compact(files) {
        Ok(done) => return Ok(done),
        Err(fault) => recover(rt, log, folder, roster, fault)?,
    }
    let files = open_record(rt, log, folder, true)?;
    match compaction.compact(files) {
        Ok(done) => Ok(done),
        Err(fault) => Err(refused(log, folder, fault)),
    }
}

/// Makes a record shorter, and prints how many lines it had and has.
pub fn compact<'a, R: Files<File = File> + AllocGlobal + Print, L: Log>(
    rt: &R,
    log: &L,
    path: &'a str,
    folder: &str,
) -> Result<(), Fault<'a>> {
    let roster = read_roster(rt, log, path)?;
    let done = shorten(rt, log, folder, &roster)?;
    match println!(rt; "compacted {} {}", done.before, done.after) {
        Ok(()) => Ok(()),
        Err(error) => {
            error!(log; "standard output: {error}");
            Err(Fault::Io)
        }
    }
}
