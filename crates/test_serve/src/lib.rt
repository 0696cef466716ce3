//! Tests of the server over sockets: servers over loopback with a join server, gateways, packet forwarders and devices in threads of their
//! own, what they write, also as JSON objects and events, and what they log, also where memory is really gone, trims of a running server,
//! lives of a record, also one that left a window open, and that what leaves stands in it before.
//!
//! A trial is a table: what is asked of servers, the steps of those around them, and the text that they write and log. They call what
//! `ns_serve` gives in public, and stand here so that it is not proved once more for its tests.
#![tactic(auto)]

#[cfg(test)]
mod forwarded;
#[cfg(test)]
mod in_time;
#[cfg(test)]
mod lives;
#[cfg(test)]
mod logged;
#[cfg(test)]
mod loopback;
#[cfg(test)]
mod trial;
#[cfg(test)]
mod trims;
#[cfg(test)]
mod written;
