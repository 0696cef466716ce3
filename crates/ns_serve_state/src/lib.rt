//! What all threads of a server over sockets share, and how a thread reaches it.
//!
//! `State` has the sockets, the queue of tickets, the counters, the record and the status. Around it stand the clock, what is logged, when
//! the record of the workers' calls is written (`write_record`), what the system says of the process and its sockets (`SystemFiles`), and which gateway workers rest while the others are enough. How workers
//! wait, what they hand each other and who is told what happens is `ns_serve_events`'; datagrams and downlinks are `ns_serve_sockets`', and
//! answers over HTTP `ns_serve_status`'. Which workers hear forwarders, and beside how many one may rest, are
//! contracts; what stands under a lock and what the system does is shown by tests alone.
//! The crate stands on `ns_serve_parts`, on `ns_outside` for tickets and receipts, on `ns_calls`, `ns_output`, `ns_forwarder`,
//! `ns_forwarder_socket`, `ns_front`, `ns_roster` and `ns_types`, on `ns_record_files` for the record, on `ns_status`, and on `ns_log` for
//! log lines.
#![tactic(auto)]

mod clock;
mod counted;
mod logged;
mod queue;
mod record;
mod rest;
mod state;
mod status;
mod system;

pub use clock::{closing_of, now_ms};
pub use logged::{
    Seldoms, log_counts, log_message, log_seldom, log_unsent, look_at_drops, note_message,
};
pub use queue::AskQueue;
pub use record::{
    has_failed, log_failure, look_after_record, rest_record, write_in_time, write_record,
};
pub use state::State;
pub use status::{Ages, BATCH, Status};
pub use system::{Process, SystemFiles};
