//! The sockets of a server: what is done before its threads start, the datagrams and downlinks, and its writer.
//!
//! `begin` opens the sockets by which gateways are heard and where the status is told, and makes what all threads share; `begun_output`
//! writes the first lines, `watch_stop` has a thread that waits for the end of standard input, and `log_start` tells what is served.
//! `FromSocket` gives the datagrams of gateways, of this server's own socket or of that of packet forwarders, and `ToSocket` sends downlinks
//! to where a gateway was heard. What leaves waits for the record: `AfterRecord` is the writer that takes no line before what it rests on is
//! written, and `Later` keeps the downlinks of windows that are closed together. What a worker notes of a datagram, that it is given whole,
//! that only a frame is a late copy, when failures end a worker, and when it is to rest or to wake another are contracts; what is opened and
//! logged, what stands under a lock and what the system does is shown by tests alone.
//! The crate stands on `ns_serve_state` for what the threads share, on `ns_serve_parts` to count, on `ns_serve_streams` for the output, on
//! `ns_outside` for what the workers ask of what stands round them, on `ns_front` and `ns_forwarder_socket` for what comes by a socket, on
//! `ns_link` for what goes down by it, on `ns_record_files`, `ns_roster`, `ns_calls` and `ns_types`, and on `ns_log` for log lines.
#![tactic(auto)]

mod after;
mod fault;
mod pace;
mod sockets;
mod start;
mod stop;

pub use after::{AfterRecord, Later};
pub use fault::no_memory;
pub use sockets::{FromSocket, ToSocket};
pub use start::{begin, begun_output, log_start, watch_stop};
pub use stop::{EndOfInput, Stop};
