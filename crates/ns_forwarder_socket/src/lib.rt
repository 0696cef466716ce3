//! The socket at which packet forwarders are heard (Semtech UDP protocol, versions 1 and 2; EU868), shared by all workers of a server.
//!
//! `Forwarders::next` gives a worker the next datagram of the messages that it hears: a message is acknowledged by its head before its body
//! is read, and `Pending::take_heard` says what it was. `Forwarders::route` is where a gateway last asked for downlinks, and `Forwarders::send` sends one there as a PULL_RESP.
//!
//! What a message becomes is `take`, and what is known of gateways thereafter `Gateways::note`; both are defined in `specs/` and proved,
//! over what ns_forwarder defines. What the sockets and locks do is tested. Stands on ns_types and ns_forwarder, and on lru of the kit.
#![tactic(auto)]

mod counts;
mod gateways;
mod pending;
mod socket;
mod taken;

pub use crate::counts::{ForwarderCounts, outcome_name};
pub use crate::gateways::{Gateway, Gateways, Route, RouteTo};
pub use crate::pending::{Heard, Pending};
pub use crate::socket::{Event, Forwarders};
pub use crate::taken::{Taken, take};
