//! The streams of a server over sockets: its output, and connections to the join server.
//!
//! `Output` has whole lines that are not written yet, and all workers write by it (`Lines`, `put_under_lock`); `Held` keeps the lines of a
//! turn, and `WaitingWriter` waits for who reads them. A connection to the join server (`ToJoinServer`) has one limit for the whole
//! exchange, and `words_of` says in words why it gave no answer.
//!
//! What is written is a contract over its definition in `specs/`. What stands under a lock, what is logged, and what the system does with a
//! socket, no contract says. The crate stands on `ns_serve_parts` for why serving ends and what a line is, on `ns_outside`, `ns_exchange`
//! and `ns_responses` for the exchange with a join server, on `ns_calls`, `ns_lines` and `ns_types`, on `ns_log` for log lines, and on `arrayvec`
//! and `itoa` of the kit.
#![tactic(auto)]

mod held;
mod join_server;
mod output;
mod waiting;
mod words;

pub use held::Held;
pub use join_server::{ToJoinServer, Within};
pub use output::{Lines, Output, put_under_lock, write_whole};
pub use waiting::WaitingWriter;
pub use words::words_of;
