//! A shard that answers as one before it did, from what that one answered from.
//!
//! `restore` makes a short list of legal calls out of the tables of a shard, gives them to a shard without entries, and compares what that
//! shard then answers from with the tables. So whatever the tables are, the shard is one that a legal history left, and where it is given
//! its tables are those. `fitting` first leaves out of tables what a changed roster no longer has. The crate stands on `ns_shard`, on
//! `ns_checkpoint` for the tables, and on `ns_creator` for frames that nobody sent.
#![tactic(auto)]

mod compare;
mod devices;
mod fault;
mod frames;
mod joins;
mod maker;
mod making;
mod other_roster;
mod plan;
mod shard;
mod table;
mod uplinks;
mod windows;

pub use compare::has_tables;
pub use fault::RestoreFault;
pub use other_roster::{Fitted, fitting};
pub use shard::restore;
pub use table::tables_of;
