//! What goes out for a window or a ticket, and with an entry, by a search of the entries before it.
//!
//! `acknowledgement` and `accept_at` make the downlinks, at RX1 of a copy. A shard calls them with what its records hold, and the
//! search with what it finds.
//!
//! A shard answers from its records. The search answers the same question from the entries alone, as the definition does: which window
//! the entry closed or which ticket it ended, who heard it, and under which keys its session is. It is slow, in proportion to the
//! entries before, and takes no memory; receipts are compared with histories by it. The crate stands on the frame crates, `ns_roster`
//! and `ns_calls`.
#![tactic(auto)]

mod down;
mod rx1;
mod same;
mod search;
mod up;

pub use down::downlink_of;
pub use rx1::{accept_at, acknowledgement};
pub use same::{is_downlink, is_entry, is_uplink};
pub use up::uplink_of;
