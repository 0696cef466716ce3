//! The server over sockets: gateways over UDP, the join server over TCP, uplinks to a writer, each on a line.
//!
//! `serve` starts gateway workers, join workers and a closer round one `ns_server::Server`, stops them after as many datagrams as its
//! options say, when `Stop` says so or at a fault, settles, closes what is still open, and gives the number of entries.
//! The crate stands on `ns_serve_shards` for the shards with which it begins, for trims and for its end, on `ns_serve_sockets` for what is
//! done before the threads start and for the writer of the output, on `ns_serve_workers` for the threads, on `ns_serve_events` for the gate and the monitor, on `ns_server`,
//! `ns_shard` and `ns_tally` for the server, on `ns_serve_state` for what the threads share, `ns_serve_parts` for the parts of it,
//! `ns_serve_streams` for the output, on `ns_record_files`, `ns_roster` and `ns_types`, and on `ns_log` for log lines.
#![tactic(auto)]

mod service;
mod trimming;

pub use ns_serve_parts::{ServeFault, ServeOptions};
pub use ns_serve_shards::Begun;
pub use ns_serve_sockets::{EndOfInput, Stop};
pub use ns_serve_state::SystemFiles;
pub use ns_serve_streams::WaitingWriter;
pub use service::serve;
