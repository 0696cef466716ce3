//! What a gateway worker of a server over sockets looks at before the call of a datagram is made.
//!
//! `read_seen` and `front_of` tell which gateway and which frame a datagram names. `Peers` has the addresses from which gateways were
//! last heard, `Addresses` too how often they have changed, and `NotedPeers` of which gateways a worker knows this without a lock.
//! `Lates` has the frames whose windows were closed, of which further copies are late, one table a shard under a lock. Each has a contract
//! over its definition in `specs/`, but what stands under a lock: no contract says what `Lates` answers, only what one of its tables does.
//! The crate stands on `ns_link`, `ns_types` and `ns_views`, and on `lru` of the kit.
#![tactic(auto)]

mod addresses;
mod front;
mod late;
mod noted;
mod peers;

pub use addresses::{Addresses, PeerAddr};
pub use front::{FrameName, Seen, front_of, read_seen};
pub use late::Lates;
pub use noted::NotedPeers;
pub use peers::Peers;
