//! The compaction of the files of a record, also of one that a server goes on with.

use crate::ahead::{Ahead, catch_up};
use crate::part::{NewSteps, Part, PartFile, logged};
use crate::same::serves_as_well;
use crate::written::write_shards;
use ns_log::{Log, error, warn};
use ns_record_files::{FilesFault, LaterLines, RecordFiles, Recorder, ShorterSteps, read_again};
use ns_resume::{RecordFault, Resumed, run_record};
use ns_roster::Roster;
use ns_shard::Shard;
use ns_types::Key;
use std::alloc::Global;
use std::fs::File;
use std::io::{BufReader, BufWriter, Read, Write};
use std::rt::Files;
use std::sync::{Arc, Wait};

// How many bytes of a file are read or written at once.
const BLOCK: usize = 262_144;

/// How many step lines a record had, and how many lines the checkpoint has that took their place.
#[derive(Clone, Copy)]
pub struct Compacted {
    pub before: u64,
    pub after: u64,
}

/// What a compaction works with: the folder of a record, and its roster.
#[derive(Drop)]
pub struct Folder<'a, R, L> {
    pub rt: &'a R,
    pub log: &'a L,
    pub alloc: Global,
    pub path: &'a str,
    pub roster: &'a Arc<Roster>,
}

// The fault of a record whose files failed.
fn of_files(fault: FilesFault) -> RecordFault {
    match fault {
        FilesFault::NoMemory => RecordFault::NoMemory,
        FilesFault::Io => RecordFault::Io,
        FilesFault::InUse => RecordFault::Io,
    }
}

// The value of a call of the files.
fn had<T: Drop>(outcome: Result<T, FilesFault>) -> Result<T, RecordFault> {
    match outcome {
        Ok(value) => Ok(value),
        Err(fault) => Err(of_files(fault)),
    }
}

impl<'a, R: Files<File = File>, L: Log> Folder<'a, R, L> {
    // A file of the folder, to be read from its beginning.
    fn open(&self, name: &str) -> Result<File, RecordFault> {
        had(read_again(self.rt, self.log, self.alloc, self.path, name))
    }

    // So many bytes of a file of the folder, from its beginning.
    pub(crate) fn read<'b>(
        &self,
        name: &str,
        bytes: u64,
        part: &Part<'b>,
    ) -> Result<BufReader<PartFile<'b>>, RecordFault> {
        let file = part.of(self.open(name)?, bytes);
        Ok(BufReader::with_capacity(self.alloc, BLOCK, file)?)
    }

    // Runs this part of the record, as a start does.
    fn run(&self, part: &Part<'_>) -> Result<Resumed, RecordFault> {
        let mut steps = self.read("steps", part.steps, part)?;
        let mut ups = self.read("up", part.ups, part)?;
        run_record(self.alloc, self.roster.clone()?, &mut steps, &mut ups)
    }

    // Writes the checkpoint of these shards, beside `up` lines of so many bytes. Returns the number of its lines.
    fn write(&self, shards: &[Shard], ups: u64, to: &ShorterSteps) -> Result<u64, RecordFault> {
        let new = NewSteps {
            log: self.log,
            file: to.file(),
        };
        let mut out = BufWriter::with_capacity(self.alloc, BLOCK, new)?;
        let lines = write_shards(self.alloc, shards, ups, &mut out)?;
        out.flush()?;
        Ok(lines)
    }

    // Whether a start from what was written leaves the same, beside the `up` lines that are there.
    fn is_as_well(&self, part: &Part<'_>, shards: &[Shard]) -> Result<bool, RecordFault> {
        let mut steps = self.read("steps.new", u64::MAX, part)?;
        let mut ups = self.read("up", part.ups, part)?;
        let roster = self.roster.clone()?;
        serves_as_well(self.alloc, roster, shards, &mut steps, &mut ups)
    }

    // Writes the checkpoint of these shards into `steps.new`, and tests that it serves as well. Returns the number of its lines.
    fn put(
        &self,
        part: &Part<'_>,
        shorter: &ShorterSteps,
        shards: &[Shard],
        ups: u64,
    ) -> Result<u64, RecordFault> {
        let lines = self.write(shards, ups, shorter)?;
        if self.is_as_well(part, shards)? {
            Ok(lines)
        } else {
            Err(RecordFault::NotAsWell)
        }
    }

    // Mends the files of the record. Why that fails is logged.
    fn mend(
        &self,
        files: &mut RecordFiles,
        torn: usize,
        up_torn: usize,
        missing: &[u8],
    ) -> Result<(), RecordFault> {
        if files.mend(torn, up_torn, missing).is_ok() {
            return Ok(());
        }
        if let Some(failure) = files.failure() {
            error!(self.log; "record: {failure}");
        }
        Err(RecordFault::Io)
    }

    // Writes the checkpoint of the record into `steps.new`, and brings the record to the disk. First the record is mended, as a start does.
    fn prepare(
        &self,
        files: &mut RecordFiles,
        shorter: &ShorterSteps,
    ) -> Result<Compacted, RecordFault> {
        let part = Part::whole();
        let left = self.run(&part)?;
        self.mend(files, left.torn, left.up_torn, left.missing.as_slice())?;
        let ups = had(files.sync_all(self.log))?;
        let after = self.put(&part, shorter, left.shards.as_slice(), ups)?;
        Ok(Compacted {
            before: left.lines,
            after,
        })
    }

    // Writes the checkpoint of this part of the record, which has whole lines, into `steps.new`, and brings its `up` lines to the disk.
    fn prepare_part(
        &self,
        part: &Part<'_>,
        shorter: &ShorterSteps,
    ) -> Result<Compacted, RecordFault> {
        let left = self.run(part)?;
        if left.torn > 0 || left.up_torn > 0 || !left.missing.is_empty() {
            return Err(RecordFault::NotAsWell);
        }
        logged(self.log, self.open("up")?.sync_all())?;
        let after = self.put(part, shorter, left.shards.as_slice(), part.ups)?;
        Ok(Compacted {
            before: left.lines,
            after,
        })
    }

    // A key that nobody knows, if the system gives one.
    fn secret(&self) -> Option<Key> {
        let mut bytes = [0u8; 16];
        let mut random = logged(self.log, File::open(self.rt, "/dev/urandom")).ok()?;
        logged(self.log, random.read_exact(&mut bytes)).ok()?;
        Some(Key(bytes))
    }

    // Runs the steps of the record, and lets them catch up with its `up` lines.
    fn catch_up(&self, part: &Part<'_>) -> Result<Ahead, RecordFault> {
        let mut steps = self.read("steps", part.steps, part)?;
        let mut ups = self.read("up", part.ups, part)?;
        let roster = self.roster.clone()?;
        catch_up(self.alloc, roster, &mut steps, &mut ups, self.secret())
    }

    // Writes a checkpoint into `steps.new` that is not behind the `up` lines of the record, brings these to the disk, and tests both.
    fn prepare_ahead(
        &self,
        files: &mut RecordFiles,
        shorter: &ShorterSteps,
    ) -> Result<Ahead, RecordFault> {
        let part = Part::whole();
        let ahead = self.catch_up(&part)?;
        self.mend(files, 0, ahead.up_torn, &[])?;
        let ups = had(files.sync_all(self.log))?;
        self.put(&part, shorter, ahead.shards.as_slice(), ups)?;
        Ok(ahead)
    }

    // Puts steps that are prepared in the place of those of the record, or takes them away.
    fn swap<T: Drop>(
        &self,
        files: &RecordFiles,
        shorter: &ShorterSteps,
        prepared: Result<T, RecordFault>,
    ) -> Result<T, RecordFault> {
        match prepared {
            Ok(prepared) => {
                had(files.replace(self.rt, self.log, shorter))?;
                Ok(prepared)
            }
            Err(fault) => {
                shorter.remove(self.rt);
                Err(fault)
            }
        }
    }

    /// Lets the steps of its record catch up with its `up` lines, of which some are not of these steps, as the end of the machine may leave
    /// them. All `up` lines stay, and none of their uplinks goes up again as far as the steps know its session. After a crash at any moment
    /// the folder has the old steps or the new ones; after a fault the steps are as before.
    pub fn recover(&self, mut files: RecordFiles) -> Result<(), RecordFault> {
        let shorter = had(ShorterSteps::create(self.rt, self.log, self.alloc, self.path))?;
        let prepared = self.prepare_ahead(&mut files, &shorter);
        let Ahead { lines, unknown, .. } = self.swap(&files, &shorter, prepared)?;
        let known = lines.saturating_sub(unknown);
        warn!(self.log; "record: up was {lines} lines ahead of steps: {known} are put down again, {unknown} are of no known session");
        Ok(())
    }

    /// Puts a checkpoint in the place of the steps of its record, after which every later answer is the same, and brings it to the disk:
    /// after a crash at any moment the folder has the one or the others. First the record is mended, as a start does. After a fault all
    /// whole lines are there as before.
    pub fn compact(&self, mut files: RecordFiles) -> Result<Compacted, RecordFault> {
        let shorter = had(ShorterSteps::create(self.rt, self.log, self.alloc, self.path))?;
        let prepared = self.prepare(&mut files, &shorter);
        self.swap(&files, &shorter, prepared)
    }
}

impl<'a, R: Files<File = File> + Wait, L: Log> Folder<'a, R, L> {
    // Puts a checkpoint in the place of the lines of this part, while the server goes on.
    fn replace_part(
        &self,
        record: &Recorder<RecordFiles>,
        part: &Part<'_>,
        shorter: &ShorterSteps,
    ) -> Result<Compacted, RecordFault> {
        let mut later = LaterLines::new(self.alloc, self.open("steps")?, part.steps)?;
        let compacted = self.prepare_part(part, shorter)?;
        // What came in the meantime is brought to the disk before anybody waits.
        had(later.follow(self.log, shorter))?;
        had(shorter.sync(self.log))?;
        had(record.replace(self.rt, self.log, shorter, &mut later))?;
        Ok(compacted)
    }

    /// Compacts the record of a server that goes on with it, of which this part is written. The server waits only while the last lines are
    /// appended and the file gets its name. After a fault it goes on as before (but for `Recorder::replace`).
    pub(crate) fn compact_part(
        &self,
        record: &Recorder<RecordFiles>,
        part: &Part<'_>,
    ) -> Result<Compacted, RecordFault> {
        let shorter = had(ShorterSteps::create(self.rt, self.log, self.alloc, self.path))?;
        let outcome = self.replace_part(record, part, &shorter);
        if outcome.is_err() {
            shorter.remove(self.rt);
        }
        outcome
    }
}
