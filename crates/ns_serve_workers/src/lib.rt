//! The workers of a server as threads: what each takes along, does from its start to its end, and brings back.
//!
//! `run_all` divides the passes, starts gateway workers, join workers, who tells the status and who looks after the record, runs the closer in
//! its own thread, waits for all of them and keeps what they bring back. The workers are those of `ns_workers`, over what makes calls
//! (`ns_outside::Calls`).
//!
//! Promised: each pass that comes back rose by receipts, each of which tells the plain server's answer; a gateway worker served, a join worker
//! answered and the closer closed as the workers' contracts say; no worker's fault is lost. That all threads are started, that one does
//! what its worker does, that a message or a datagram comes, and what stands under a lock is shown by tests alone.
//! The crate stands on `ns_workers` and `ns_outside`, on `ns_serve_threads` to start the threads, on `ns_serve_state` for what they share and
//! `ns_serve_parts` for the parts of it, on `ns_serve_events` for how they wait and what they hand each other, on `ns_serve_streams` for the
//! output and the join server, on `ns_serve_sockets` for datagrams and downlinks, on `ns_serve_status` for answers over HTTP, on
//! `ns_output`, `ns_forwarder_socket`, `ns_exchange`, `ns_record_files`, `ns_responses`, `ns_roster`, `ns_tally` and `ns_types`, on
//! `ns_log` for log lines, and on `crossbeam_channel` of the kit.
#![tactic(auto)]

mod around;
mod closer;
mod closing;
mod helpers;
mod kits;
mod run;
mod workers;

pub use around::Around;
pub use closing::AfterTurn;
pub use run::{Ends, run_all};
