//! How the workers of a server over sockets wait, what they hand each other, and who sees what they do.
//!
//! Windows go to the closer by a channel and tickets to join workers by a queue (`IntoQueues`, `FromQueue`), what an earlier life left open
//! among them (`hand_on`); the lines of joins and acknowledgements wait for the closer to write them (`take_notices`). `SinceStart` and
//! `SinceMoment` are the clock as workers wait by it. `Recording`, the gate of the calls, puts down each on which later answers rest, with
//! the `up` line of what goes up with it. `Events`, the monitor, counts what happens, keeps what a later line, a copy or an answer over HTTP
//! rests on (which frame's window is closed when, by which gateway a device asked to join, the status of devices), and logs it: at debug all
//! that is refused, at info joins and, once a minute at most, who got a reply that an operator is to know.
//!
//! How long is waited at most, of what receipt a line tells, and which lines are put down of a call are contracts; what is counted, kept and
//! logged, which calls are put down, what stands under a lock and what the system does is shown by tests alone.
//! The crate stands on `ns_serve_state` for what all threads share and on `ns_serve_parts` for the parts of it, on `ns_serve_streams` for the
//! words of a join server's faults, on `ns_outside` for what the workers ask of what stands round them, on `ns_record` and `ns_record_files`
//! for the record, on `ns_calls`, `ns_events`, `ns_front`, `ns_exchange`, `ns_lines`, `ns_output` and `ns_types`, on `ns_log` for log lines,
//! and on `crossbeam_channel` of the kit.
#![tactic(auto)]

mod channels;
mod clock;
mod events;
mod notices;
mod queue;
mod recording;

pub use channels::{IntoQueues, hand_on};
pub use clock::{SinceMoment, SinceStart, nap_ms, times_of};
pub use events::Events;
pub use notices::{note_event, take_notices};
pub use queue::FromQueue;
pub use recording::{Recording, record_call};
