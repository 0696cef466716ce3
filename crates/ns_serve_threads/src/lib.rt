//! Threads of workers: each is started with what it takes along, and brings something back.
//!
//! `run_threads` starts a thread for each kit, does in its own what is the caller's, and comes back when all have ended; `join_helpers` waits
//! for those that bring nothing back. That there is a handle for each kit where all were made is a private clause (`start_threads`); that a
//! thread does its work is shown by tests alone. The crate knows no server, and stands on std alone.
#![tactic(auto)]

mod threads;

pub use threads::{Handles, Lead, Ran, Starts, Work, join_helpers, run_threads};
