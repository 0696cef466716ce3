//! The answers over HTTP to who asks a server over sockets for its status.
//!
//! `tell` reads requests, of up to sixteen connections side by side, and tells the page, the devices, the gateways or the counts by what
//! `State` of `ns_serve_state` has. What a request asks and what an answer's text is are `ns_status`'; how long a connection may last, that
//! none waits for another, and that the rows of an answer come in pieces with no lock held while one is written, is shown by tests alone.
//! The crate stands on `ns_serve_state`, on `ns_serve_parts` and `ns_forwarder_socket` for what is counted, on `ns_status`, and on
//! `ns_types`.
#![tactic(auto)]

mod answer;
mod metrics;
mod telling;

pub use telling::tell;
