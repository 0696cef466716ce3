//! Worked runs of the plain server: calls, and the answers that its definitions give, which the checker computes.
//!
//! Each run is the contract of a function that does nothing: `answers_of network calls` is the list of answers that stands
//! there. The answers were written down from the server's rules, or given by a model of the server that was written apart from
//! it, and the frames were made by OpenSSL or in Python: none of it comes from this program. So whoever doubts a definition reads
//! a run. `json_texts` does the same for the texts of rosters and join servers, `written_frames` for the frames that creators
//! build. `runs_are_legal` says of each run from the roster on that it is a legal history, so what is promised of those holds of
//! it; `last_counter` and the last round of `sent_again` begin from entries that are given, and `first_window` is values of RX1.
//! In `long_run`, `open_run`, `acknowledged_run` and `run_sent_again` the entries are trimmed, and what is kept answers the calls after.
//!
//! These are the runs to which the definitions are held without any program. All others stand as texts, which the program worked_texts
//! makes (`crates/worked_texts/data`).
//!
//! The crate has no code that an edit could spoil, and so no must-fail edits: each would compute all runs again.
//!
//! Stands on `ns_calls`, `ns_joinwire`, `ns_creator` and `ns_kept`, and on the crates below them.
#![tactic(auto)]

mod runs;
mod trimmed_runs;

pub use runs::{
    first_join, first_window, json_texts, last_counter, runs_are_legal, second_join, sent_again,
    shared_address, written_frames,
};
pub use trimmed_runs::{acknowledged_run, long_run, open_run, run_sent_again};
