//! Fewer steps take the place of those of a record while its server goes on.

use crate::files::{FilesFault, Lengths, RecordFiles, ShorterSteps, told};
use crate::recorder::Recorder;
use ns_log::Log;
use std::alloc::{AllocError, Global};
use std::fs::File;
use std::io;
use std::io::Write;
use std::os::unix::fs::FileExt;
use std::rt::Files;
use std::sync::{Mutex, Wait};

// How many bytes are read and written at once.
const BLOCK: usize = 262_144;

/// What looks after the record of a server while that goes on.
pub trait Upkeep {
    /// Does what is due.
    fn look_after(&mut self, record: &Recorder<RecordFiles>);
}

/// Where there is none, nothing is done.
impl<U: Upkeep> Upkeep for Option<U> {
    fn look_after(&mut self, record: &Recorder<RecordFiles>) {
        if let Some(upkeep) = self {
            upkeep.look_after(record);
        }
    }
}

/// The lines of steps behind so many bytes, which are to follow fewer steps.
#[derive(Drop)]
pub struct LaterLines {
    steps: File,
    behind: u64,
    block: Vec<u8>,
}

impl LaterLines {
    /// Those of this file.
    pub fn new(alloc: Global, steps: File, behind: u64) -> Result<LaterLines, AllocError> {
        let block = vec![in alloc; 0u8; BLOCK]?;
        Ok(LaterLines {
            steps,
            behind,
            block,
        })
    }

    // Appends the bytes that are there and were not appended before.
    fn append_to(&mut self, mut file: &File) -> io::Result<()> {
        for _block in 0..u64::MAX {
            let count = self.steps.read_at(self.block.as_mut_slice(), self.behind)?;
            if count == 0 {
                return Ok(());
            }
            file.write_all(&self.block.as_slice()[..count])?;
            self.behind = self.behind.saturating_add(count as u64);
        }
        Ok(())
    }

    /// Appends to fewer steps what is there by now and was not appended before.
    pub fn follow<L: Log>(&mut self, log: &L, shorter: &ShorterSteps) -> Result<(), FilesFault> {
        told(log, self.append_to(shorter.file()))
    }
}

impl Recorder<RecordFiles> {
    /// How many bytes its files have, which are whole lines: the `up` lines are all that the steps imply. None after a failure.
    pub fn lengths<R: Wait>(&self, rt: &R) -> Option<Lengths> {
        let writing = self.writing.lock(rt);
        if writing.writer.has_failed() {
            return None;
        }
        writing.writer.disk().lengths().ok()
    }

    /// Puts fewer steps, of its folder, in the place of its own, once the later lines of its own follow them, and goes on with them. After a
    /// crash at any moment the folder has all lines that were written, in the ones or the others. Where it cannot be done, it goes on as
    /// before; only where the steps may have lost their name does every write fail from then on.
    pub fn replace<R: Wait + Files<File = File>, L: Log>(
        &self,
        rt: &R,
        log: &L,
        shorter: &ShorterSteps,
        later: &mut LaterLines,
    ) -> Result<(), FilesFault> {
        let mut guard = self.writing.lock(rt);
        let writer = &mut guard.writer;
        if writer.has_failed() || self.rests() {
            return Err(FilesFault::Io);
        }
        later.follow(log, shorter)?;
        let over = writer.disk().over(rt, log, shorter)?;
        if let Err(fault) = over.replace(rt, log, shorter) {
            if !shorter.has_own_name(rt) {
                writer.fail();
            }
            return Err(fault);
        }
        writer.go_on_with(over);
        Ok(())
    }
}
