//! The record of a folder, which a server is to go on with.

use crate::ending::End;
use crate::fault::{Fault, of_files};
use crate::roster::read_roster;
use ns_log::{Log, error};
use ns_record_files::{FilesFault, RecordFiles};
use ns_roster::Roster;
use ns_words::{Asked, BadWords, read_words};
use std::fs;
use std::fs::File;
use std::rt::Files;
use std::sync::Arc;

/// Whether the folder of a record is there. Where it is not, that is logged.
pub fn named_folder<R: Files<File = File>, L: Log>(
    rt: &R,
    log: &L,
    path: &str,
) -> Result<(), FilesFault> {
    if fs::exists(rt, path).unwrap_or(true) {
        return Ok(());
    }
    error!(log; "{path}: there is no such folder; make it for the server's user alone: install -d -m 700 {path}");
    Err(FilesFault::Io)
}

/// The files of a record's folder. Why they are not opened is logged.
pub fn open_record<R: Files<File = File> + AllocGlobal, L: Log>(
    rt: &R,
    log: &L,
    path: &str,
    sync: bool,
) -> Result<RecordFiles, Fault<'static>> {
    if let Err(fault) = named_folder(rt, log, path) {
        return Err(of_files(fault));
    }
    match RecordFiles::open(rt, log, rt.alloc(), path, sync) {
        Ok(files) => Ok(files),
        Err(fault) => {
            error!(log; "{path}: {fault}");
            Err(of_files(fault))
        }
    }
}

/// The record that a server is to keep: its folder, and the roster.
#[derive(Drop)]
pub struct Kept<'a> {
    pub folder: &'a str,
    pub roster: Arc<Roster>,
}

/// The record that a server is to keep, and the roster once more, where the words ask for one; or how the program ends. Why the roster is not
/// read is logged.
pub fn kept_record<'a, R: Files<File = File> + AllocGlobal, L: Log>(
    rt: &R,
    log: &L,
    words: &'a [String],
) -> Result<(Option<Kept<'a>>, Option<Arc<Roster>>), End<'a>> {
    let (path, record) = match read_words(rt.alloc(), words) {
        Ok(Asked::Serve(path, _, record)) => (path, record),
        Err(BadWords::NoMemory) => return Err(End::Refused(BadWords::NoMemory)),
        _ => return Ok((None, None)),
    };
    let Some(folder) = record.folder else {
        return Ok((None, None));
    };
    let roster = match read_roster(rt, log, path) {
        Ok(roster) => roster,
        Err(fault) => return Err(End::Ran(Err(fault))),
    };
    let Ok(again) = roster.clone() else {
        return Err(End::Ran(Err(Fault::NoMemory)));
    };
    Ok((Some(Kept { folder, roster }), Some(again)))
}
