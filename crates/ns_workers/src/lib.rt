//! The workers that run a server: gateways, joins and closings.
//!
//! A gateway worker reads datagrams, makes their calls and puts the jobs that follow; a join worker asks the join server about tickets
//! and answers them; a closer closes windows as they become due and writes their lines. Each has a pass of its own, and what it
//! did is counted in it. What is around them (sockets, channels, a clock) stands behind the small traits of `ns_outside`, so that the
//! same workers run in the program, in a test and in a program that embeds them.
//!
//! Promised where a source tells what it gave: a closer waited for the time of each job that it took, its receipts are of their
//! closings, in order, and its sink has their lines; a join worker's receipts are of the answers to its tickets, in order, each as the
//! join server answered; a gateway worker counted each datagram as refused, dropped or called, and put the job that follows each reply
//! once, or did it. What goes down is that of the receipts.
//! The crate stands on `ns_outside` for these and for what makes calls (`Calls`: a server of `ns_server` does), on `ns_link`, `ns_views`,
//! `ns_calls`, `ns_lines`, `ns_events` and `ns_output` for datagrams and lines, and on `ns_joinwire`, `ns_exchange` and `ns_joinclient` for
//! the exchange with a join server.
#![tactic(auto)]

mod closer;
mod counted;
mod datagram;
mod gateway;
mod job;
mod join;
mod laws;
mod line;
mod listed;
mod shared;

pub use closer::{Ended, run_closer, run_closer_into};
pub use gateway::{Served, run_gateway};
pub use join::{Joined, run_join};
pub use laws::lines_are_up_lines;
pub use listed::{ListedDatagrams, ListedJobs};
pub use shared::Shared;
