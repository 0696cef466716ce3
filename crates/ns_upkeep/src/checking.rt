//! What a start would refuse, without a start.

use ns_commands::{Fault, named_folder, of_files, of_record, read_roster};
use ns_log::{Log, error, warn};
use ns_record_files::{FilesFault, read_again};
use ns_resume::{RecordFault, run_record};
use ns_roster::Roster;
use std::alloc::Global;
use std::fs::File;
use std::io::{BufReader, Read};
use std::os::unix::fs::FileExt;
use std::rt::Files;
use std::sync::Arc;
use std::{fs, io};

// How many bytes of each file are read at once.
const BLOCK: usize = 262_144;

// A file of a record, to be read; one without bytes where a start would make it.
fn open_there<R: Files<File = File>, L: Log>(
    rt: &R,
    log: &L,
    alloc: Global,
    folder: &str,
    name: &str,
) -> Result<File, FilesFault> {
    let Ok(path) = format!(in alloc; "{folder}/{name}") else {
        return Err(FilesFault::NoMemory);
    };
    if fs::exists(rt, path.as_str()).unwrap_or(true) {
        read_again(rt, log, alloc, folder, name)
    } else {
        read_again(rt, log, alloc, "/dev", "null")
    }
}

// How many bytes of a file stand before the zeros at its end, which a start cuts off.
fn length_without_zeros(file: &File) -> io::Result<u64> {
    let len = file.metadata()?.len();
    let mut byte = [0u8];
    for zeros in 0..len {
        file.read_exact_at(&mut byte, len - 1 - zeros)?;
        if byte != [0u8] {
            return Ok(len - zeros);
        }
    }
    Ok(0)
}

// How many bytes of the `up` lines, and then of the steps, are there. A server that writes meanwhile writes a step first and its `up` line
// after it, so these steps imply those `up` lines.
fn lengths(steps: &File, ups: &File) -> io::Result<(u64, u64)> {
    let up_length = length_without_zeros(ups)?;
    Ok((steps.metadata()?.len(), up_length))
}

// Runs the lines of the files as a start does, those that are there by now.
fn run_files(
    alloc: Global,
    roster: &Arc<Roster>,
    steps: &File,
    ups: &File,
) -> Result<(), RecordFault> {
    let (length, up_length) = lengths(steps, ups)?;
    let mut steps = BufReader::with_capacity(alloc, BLOCK, steps.take(length))?;
    let mut ups = BufReader::with_capacity(alloc, BLOCK, ups.take(up_length))?;
    run_record(alloc, roster.clone()?, &mut steps, &mut ups)?;
    Ok(())
}

// Runs the lines of a folder. The steps are opened first, so that the `up` lines that a base counts are there.
fn run_folder<R: Files<File = File> + AllocGlobal, L: Log>(
    rt: &R,
    log: &L,
    folder: &str,
    roster: &Arc<Roster>,
) -> Result<(), RecordFault> {
    let alloc = rt.alloc();
    let steps = of_opening(open_there(rt, log, alloc, folder, "steps"))?;
    let ups = of_opening(open_there(rt, log, alloc, folder, "up"))?;
    run_files(alloc, roster, &steps, &ups)
}

// The fault of lines that could not be read.
fn of_opening(outcome: Result<File, FilesFault>) -> Result<File, RecordFault> {
    match outcome {
        Ok(file) => Ok(file),
        Err(FilesFault::NoMemory) => Err(RecordFault::NoMemory),
        Err(_) => Err(RecordFault::Io),
    }
}

// Whether a start would go on with the record of this folder. A fault counts where it is found twice: a server that compacts its record
// meanwhile may put other steps in place between the opening of the two files. `up` lines that are ahead of the steps are none: a start lets
// these catch up.
fn check_record<R: Files<File = File> + AllocGlobal, L: Log>(
    rt: &R,
    log: &L,
    folder: &str,
    roster: &Arc<Roster>,
) -> Result<(), Fault<'static>> {
    if let Err(fault) = named_folder(rt, log, folder) {
        return Err(of_files(fault));
    }
    if run_folder(rt, log, folder, roster).is_ok() {
        return Ok(());
    }
    match run_folder(rt, log, folder, roster) {
        Ok(()) => Ok(()),
        Err(RecordFault::UpLonger(_)) => {
            warn!(log; "{folder}: up is ahead of steps: a start lets these catch up");
            Ok(())
        }
        Err(fault) => {
            error!(log; "{folder}: {fault}");
            Err(of_record(fault))
        }
    }
}

/// Says what a start over this roster, and with the record of this folder where one is given, would refuse. No file is changed, and a server
/// may run on the record.
pub fn check<'a, R: Files<File = File> + AllocGlobal, L: Log>(
    rt: &R,
    log: &L,
    path: &'a str,
    folder: Option<&str>,
) -> Result<(), Fault<'a>> {
    let roster = read_roster(rt, log, path)?;
    match folder {
        Some(folder) => check_record(rt, log, folder, &roster),
        None => Ok(()),
    }
}
