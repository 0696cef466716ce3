//! The record of a server: the calls on which later answers rest, as step lines of `replay`.
//!
//! `matters` says whether later answers rest on a call with a reply; `ns_recorded` has the laws. `put_step` puts the step line of a
//! call, and `step_lines_are_read_back` says that it is read back to that call;
//! `records_are_read_back` says so of all lines of a record.
#![tactic(auto)]

mod laws;
mod replies;
mod step_text;

pub use laws::{records_are_read_back, step_lines_are_read_back};
pub use replies::matters;
pub use step_text::{put_step, step_line};
