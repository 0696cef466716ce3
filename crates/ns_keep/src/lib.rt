//! Which entries a trim keeps: one walk over the entries of a shard, from the end.
//!
//! `ns_kept` says what a trim keeps. This crate finds the numbers of those entries in time in proportion to the entries, and takes the
//! memory that it needs before anything changes. What is open it is told: the live sessions and the open tickets by a table of devices,
//! and the open windows by their names. It stands on `ns_types`, `ns_calls` and `ns_kept`.
#![tactic(auto)]

mod marks;
mod said;
mod table;
mod walk;
mod windows;

pub use table::DeviceTable;
pub use walk::numbers_kept;
