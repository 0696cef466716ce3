//! The shards of a server over sockets: with which it begins, when they are trimmed while it runs, and what is done with them once its
//! threads have ended.
//!
//! - `Begun` is what a server begins with: its shards, without entries or as a record left them, and what of them is open.
//! - `trim_due` trims the shards that are due by `Trims`.
//! - `finish` closes the windows that are still open, sends their downlinks and writes their lines, the number of entries and the closing
//!   roster.
//!
//! Promised: a server begins with sixteen shards, each at its place; the shards that are trimmed are those that its definition names; after
//! `finish` no window is open, each was closed by its shard's closing, the number is that of all entries, and the last lines are those that
//! their definition names.
//! The crate stands on `ns_server` and `ns_shard` for the shards, on `ns_resume` and `ns_record_files` for the record, on `ns_serve_events`
//! for what is put down, on `ns_serve_state`, `ns_serve_parts`, `ns_serve_streams` and `ns_serve_sockets` for what threads
//! share, on `ns_workers` for the lines of uplinks, on `ns_calls`, `ns_events`, `ns_lines`, `ns_outside`, `ns_output`, `ns_roster` and
//! `ns_types`, and on `ns_log` for log lines.
#![tactic(auto)]

mod begun;
mod closing;
mod end;
mod trims;

pub use begun::Begun;
pub use end::{finish, written};
pub use trims::{Trimmed, Trims, entries_between, trim_due, trims_of};
