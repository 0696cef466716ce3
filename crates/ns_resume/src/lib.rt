//! Shards as they were left, by the step lines of a record.
//!
//! `run_record` runs the whole lines of a record at sixteen shards, and compares the `up` lines that are there with those that go out. It reads
//! line by line and trims the shards as they grow, so its memory does not grow with the record, but for the missing `up` lines, which it
//! holds. A record begins with its steps at shards without entries; or with a checkpoint, by which `ns_restore` makes the shards; or with
//! the line of a `Base`, if an older program compacted it: the first step lines are then those whose `up` lines were written before.
#![tactic(auto)]

mod base;
mod fault;
mod head;
mod line;
mod open;
mod run;
mod ups;

pub use base::{Base, base_in, base_line};
pub use fault::RecordFault;
pub use head::{RecordHead, begin_record};
pub use run::{Resumed, run_record};
