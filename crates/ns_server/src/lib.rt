//! Sixteen shards behind locks, for programs that call one server from several threads.
//!
//! A `Server` has one lock for each shard, and under it a `Kept`: the shard and the count of its entries. Each worker calls with its
//! `Pass`, which counts what was made with it, and gets a `Receipt` of each call. When the threads have ended, `settle` takes the passes
//! back and gives the histories, `check` compares receipts with them, and `drain_next` closes what is still open. That a call's reply is
//! the plain server's, in a legal history of its shard, is proved at each call; that the histories are as long as the passes count
//! together, from the begin on, is proved at `settle`, and so is that every merge of them is a legal history of one server without shards.
//!
//! The crate stands on `ns_shard` and `ns_tally`, and on `ns_outside` for receipts and for what a call visits. It never looks into a
//! shard.
#![tactic(auto)]

mod calls;
mod check;
mod kept;
mod laws;
mod names;
mod pass;
mod server;
mod settled;

pub use kept::{Kept, Trim};
pub use laws::{receipts_are_all, receipts_since_the_mark_are_all};
pub use names::Naming;
pub use pass::Pass;
pub use server::{Server, new_shards};
pub use settled::{SettleFault, Settled};
