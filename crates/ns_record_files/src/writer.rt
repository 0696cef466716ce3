//! What writes the lines of a record.
ghost use Rattle.std.specs.Prelude.{◌≡◌, ◌∷◌, ◌++◌, [], List, true, false, is_err, IsErr, OnOk, OnErr};
ghost use Rattle.ns_record_files.specs.Record.{Batch, HasAll, GoesOnKnown};

use crate::disk::Disk;
use ns_types::Failed;
use std::marker::Model;
use std::mem;

/// Writes batches of lines: of each the steps, and once no crash takes these away, the `up` lines that they imply. After a failure nothing
/// more is written. Contracts see the moments of its files, and whether a call of it has failed.
#[derive(Drop)]
pub struct RecordWriter<D: Disk> {
    disk: D,
    failed: bool,
}

impl<D: Disk> Model for RecordWriter<D> {
    ghost use Rattle.ns_record_files.specs.Record.{Written, IsSound};

    ghost Value = { Written };

    ghost view = { λ w. record { moments = D.moments w.disk; failed = w.failed } };

    ghost invariant = { λ w. IsSound (record { moments = D.moments w.disk; failed = w.failed }) };
}

// Appends a batch: where a call fails, a front of it.
fn append_batch<D: Disk>(disk: &mut D, steps: &[u8], ups: &[u8]) -> Result<(), Failed>
    ensures ok { (batches : List Batch) → HasAll batches (D.moments disk.old)
        → OnOk result (HasAll (batches ++ record { steps = steps.now; ups = ups.now } ∷ []) (D.moments disk.new)) }
    ensures any { (batches : List Batch) → HasAll batches (D.moments disk.old)
        → GoesOnKnown batches (record { steps = steps.now; ups = ups.now }) (D.moments disk.old) (D.moments disk.new) }
{
    disk.append_steps(steps)?;
    disk.sync_steps()?;
    disk.append_ups(ups)?;
    Ok(())
}

impl<D: Disk> RecordWriter<D> {
    /// A writer that goes on with files as they are.
    pub fn new(disk: D) -> RecordWriter<D>
        requires { (batches : List Batch) × HasAll batches (D.moments disk) }
        ensures { result ≡ record { moments = D.moments disk; failed = false } }
    {
        RecordWriter {
            disk,
            failed: false,
        }
    }

    /// Whether a call of it has failed.
    pub fn has_failed(&self) -> bool
        ensures { result ≡ self.now.failed }
    {
        self.failed
    }

    /// Its files.
    pub fn into_disk(self) -> D
        ensures { D.moments result ≡ self.moments }
    {
        let RecordWriter { disk, failed: _ } = self;
        disk
    }

    /// Lends its files.
    pub fn disk(&self) -> &D
        ensures { D.moments result.now ≡ self.now.moments }
    {
        &self.disk
    }

    /// Goes on with other files, which have all lines of some batches. Gives those that it had.
    pub fn go_on_with(&mut self, disk: D) -> D
        requires { (batches : List Batch) × HasAll batches (D.moments disk) }
        ensures now { self.new ≡ record { moments = D.moments disk; failed = self.old.failed } }
        ensures before { D.moments result ≡ self.old.moments }
    {
        mem::replace(&mut self.disk, disk)
    }

    /// Writes nothing more.
    pub fn fail(&mut self)
        ensures { self.new ≡ record self.old { failed = true } }
    {
        self.failed = true;
    }

    /// Writes a batch: step lines, and the `up` lines that they imply. At `Ok` all are written, and no crash takes a step away. After a
    /// failure every further call fails, and nothing more is written.
    pub fn write(&mut self, steps: &[u8], ups: &[u8]) -> Result<(), Failed>
        ensures failed { self.new.failed ≡ is_err result }
        ensures refused { self.old.failed ≡ true → IsErr result }
        ensures over { self.old.failed ≡ true → self.new ≡ self.old }
        ensures ok { (batches : List Batch) → HasAll batches self.old.moments
            → OnOk result (HasAll (batches ++ record { steps = steps.now; ups = ups.now } ∷ []) self.new.moments) }
        ensures any { (batches : List Batch) → HasAll batches self.old.moments → self.old.failed ≡ false
            → GoesOnKnown batches (record { steps = steps.now; ups = ups.now }) self.old.moments self.new.moments }
    {
        if self.failed {
            return Err(Failed);
        }
        // What fails on the way stays failed.
        self.failed = true;
        append_batch(&mut self.disk, steps, ups)?;
        self.failed = false;
        Ok(())
    }
}
