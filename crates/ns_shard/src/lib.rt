//! One shard of the server: the calls of its devices, in order, each with its answer.
//!
//! A shard keeps the state of its devices, its open windows and its entries. It promises that each answer is the plain server's, over
//! the entries made before, that a call adds exactly its own entry, and that where memory is refused nothing has changed. It answers
//! from its records, and never searches its entries. It stands on `ns_devices`, `ns_windows` and `ns_journal`, on `ns_uplinks` and
//! `ns_sent` for what goes out, on `ns_keep` for trims, and on the definitions of `ns_calls`.
#![tactic(auto)]

mod closing;
mod compare;
mod event;
mod joining;
mod jump;
mod laws;
mod open;
mod packed;
mod parts;
mod room;
mod sending;
mod shard;
mod trim;
mod uplink;

pub use compare::same_tables;
pub use jump::JumpFault;
pub use laws::{
    answers_rest_on_tables, lives_are_one_run, many_rounds_are_a_jump,
    many_rounds_change_one_session,
};
pub use ns_uplinks::BoxedUplink;
pub use packed::BoxedAnswer;
pub use shard::Shard;
pub use trim::{Dropped, TrimFault};
