//! The files of a record: what writes their lines, in an order from which a crash at any moment leaves a record, and what opens them.
//!
//! `Disk` is the two files as a writer sees them, with what a crash at each moment may leave. `RecordWriter` appends batches of lines over
//! one: steps, then, once these are safe, the `up` lines that they imply. `Recorder` shares one among threads, and forms the lines that calls
//! have as `RecordLines`. `RecordFiles` are the two files of a folder, and `ShorterSteps` fewer steps, which take the place of its steps:
//! `swap_in` over a `Swap`, so that a crash at any moment leaves the ones or the others. Stands on ns_types, on ns_log for log lines,
//! and on the kit's arrayvec and thiserror.
#![tactic(auto)]

mod disk;
mod files;
mod laws;
mod lines;
mod recorder;
mod running;
mod swap;
mod writer;

pub use disk::Disk;
pub use files::{FilesFault, Lengths, RecordFiles, ShorterSteps, read_again};
pub use laws::{crashes_leave_a_record, crashes_leave_what_was_written};
pub use lines::{LineText, RecordLines};
pub use recorder::Recorder;
pub use running::{LaterLines, Upkeep};
pub use swap::{Swap, swap_in};
pub use writer::RecordWriter;
