//! What a crash leaves, as contracts of functions that do nothing.
ghost use Rattle.std.specs.Prelude.{List, ℕ};
ghost use Rattle.ns_record_files.specs.Disk.{Files, MayLeave, IsFront};
ghost use Rattle.ns_record_files.specs.Record.{Batch, all_steps, IsRecorded, IsLeft};

/// A crash at any moment leaves a record: all steps of some first batches, no step that was not handed over, and as `up` lines a front of
/// those that these batches imply.
pub fn crashes_leave_a_record()
    ensures { (batches : List Batch) (f : Files) (steps ups : List ℕ) → IsRecorded batches f → MayLeave f steps ups → IsLeft batches steps ups }
{}

/// A crash leaves each step that was safe.
pub fn crashes_leave_what_was_written()
    ensures { (batches : List Batch) (f : Files) (steps ups : List ℕ) → IsFront (all_steps batches) f.safe → MayLeave f steps ups → IsFront (all_steps batches) steps }
{}
