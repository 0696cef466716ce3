//! A run of steps over the sixteen shards, on one thread.
//!
//! `Shards::run` takes steps, from their bytes on, to the shards: each makes the entry that the plain server makes, or is refused.
//! `Shards::step_and_trim` takes them one by one, and trims the shards meanwhile. Promised is all that the headline says of one worker:
//! each shard's history holds one entry for each call that reached it, an uplink goes out at most once, with just its copies, and counters
//! and nonces rise; the same after trims, and from the closing roster of the run before. The crate stands on `ns_acts` for the steps, on
//! `ns_shard` for the shards, on `ns_link` and `ns_views` for what a datagram holds, and on `ns_calls`, `ns_roster` and `ns_types`.
#![tactic(auto)]

pub mod laws;
mod lines;
mod list;
mod run;

pub use lines::{Answers, LentStep, StepSource};
pub use list::{StepList, TakenList};
pub use run::{Run, Shards, TRIM_FROM, Taken, new_shards, trim_if_due};
