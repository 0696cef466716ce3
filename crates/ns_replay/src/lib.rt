//! A run of recorded steps: step lines are read from a source to its end, and the lines of their answers are written to a sink.
//!
//! `replay` does it. What it writes is the lines of the run of the steps that it read, byte for byte: each answer is the plain server's,
//! after the entries of its shard that the steps before it made. What is written is defined in `specs/Output.antt`, step lines by
//! `ns_steps`. It stands on that, on `ns_runs`, which runs the steps, and on `ns_lines`, `ns_events` and `ns_output`, which put the lines
//! of an answer. It has no streams of its own: a program passes it any `Source` and any `Sink`.
#![tactic(auto)]

mod closing;
mod laws;
mod reading;
mod run;
mod taken;

pub use laws::lines_are_the_text;
pub use run::{ReplayFault, replay};
