//! What keeps the record of a server short while that runs.

use crate::files::Folder;
use crate::growth::{bytes_left, is_due};
use crate::part::Part;
use ns_log::{Log, error, info};
use ns_record_files::{RecordFiles, Recorder, Upkeep};
use ns_resume::RecordFault;
use std::fs::File;
use std::rt::Files;
use std::sync::Wait;

// How many looks a compaction that could not be done is waited for: at first, and at most. There is about one look per second.
const PAUSE: u32 = 60;

const MOST_PAUSE: u32 = 3_600;

/// Compacts the record of a server where its steps have grown to 4 MiB and to eight times what the last compaction left.
///
/// A compaction that could not be done is tried again after 60 looks, then after twice as many as the time before, at most 3,600: each
/// try reads the whole record.
#[derive(Drop)]
pub struct Keeper<'a, R, L> {
    folder: Folder<'a, R, L>,
    // How many bytes of the steps the last compaction left, once that was looked for.
    left: Option<u64>,
    // How many looks it is still waited before the next try, and how many after the next try that fails.
    waits: u32,
    pause: u32,
    // How many tries in a row failed.
    failures: u32,
}

impl<'a, R: Files<File = File> + Wait, L: Log> Keeper<'a, R, L> {
    /// A keeper of the record of this folder.
    pub fn new(folder: Folder<'a, R, L>) -> Keeper<'a, R, L> {
        Keeper {
            folder,
            left: None,
            waits: 0,
            pause: PAUSE,
            failures: 0,
        }
    }

    // How many bytes the last compaction left.
    fn left(&mut self, part: &Part<'_>) -> u64 {
        if let Some(left) = self.left {
            return left;
        }
        let Ok(mut steps) = self.folder.read("steps", part.steps, part) else {
            return 0;
        };
        let left = bytes_left(self.folder.alloc, &mut steps).unwrap_or(0);
        self.left = Some(left);
        left
    }

    // Whether the steps have grown so much that fewer are to take their place.
    fn is_due(&mut self, part: &Part<'_>) -> bool {
        is_due(0, part.steps) && is_due(self.left(part), part.steps)
    }

    // Whether a try that failed is still too recent for the next one, at this look.
    fn rests_from_failure(&mut self) -> bool {
        let waits = self.waits;
        self.waits = waits.saturating_sub(1);
        waits > 0
    }

    // A try has failed: the next one comes after a pause.
    fn put_off(&mut self, fault: RecordFault) {
        self.waits = self.pause.saturating_sub(1);
        self.pause = self.pause.saturating_mul(2).min(MOST_PAUSE);
        self.failures = self.failures.saturating_add(1);
        let (log, path) = (self.folder.log, self.folder.path);
        error!(log; "{path}: not compacted: {fault}, {} in a row", self.failures);
    }

    // A try has succeeded.
    fn succeed(&mut self) {
        self.left = None;
        self.pause = PAUSE;
        self.failures = 0;
    }
}

impl<'a, R: Files<File = File> + Wait, L: Log> Upkeep for Keeper<'a, R, L> {
    fn look_after(&mut self, record: &Recorder<RecordFiles>) {
        if self.rests_from_failure() {
            return;
        }
        let log = self.folder.log;
        let Some(lengths) = record.lengths(self.folder.rt) else {
            return;
        };
        let part = Part::written(record, lengths);
        if !self.is_due(&part) {
            return;
        }
        match self.folder.compact_part(record, &part) {
            Ok(done) => {
                self.succeed();
                info!(log; "record: compacted {} {}", done.before, done.after);
            }
            Err(_) if record.rests() => {}
            Err(fault) => self.put_off(fault),
        }
    }
}
