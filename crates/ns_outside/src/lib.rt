//! What a server's calls give, and what the workers of a server ask of what stands round them.
//!
//! - `Receipt`: what a call got. `Gate`: what a call visits round its step. `Calls`: what makes calls, as a server does.
//! - `Job`: what follows a reply, by `job_of`. `WorkerFault`, `Refused`, `JoinFault`: why a worker ended, and why a datagram or a ticket
//!   got nothing.
//! - The traits behind which sockets, channels and a clock stand: `Datagrams`, `JobSource`, `Jobs`, `Timer`, `Connections`, `Downlinks`,
//!   `Monitor`.
//!
//! Promised: `job_of` gives the job that its definition names, and a receipt is made of its call, number and answer. A trait says what its
//! value gave, took or was told, as far as that tells it; `Calls` that each receipt tells the plain server's answer. Neither a server nor
//! workers are named here: they, and what stands round them, are made and proved beside each other.
//! The crate stands on `ns_calls` and `ns_types`, on `ns_roster` for the devices of an answer, on `ns_link` and `ns_views` for refusals, on
//! `ns_exchange` for faults of an exchange, and on `ns_output` for the times of an uplink.
#![tactic(auto)]

mod calls;
mod fault;
mod gate;
mod job;
mod receipt;
mod traits;

pub use calls::Calls;
pub use fault::{JoinFault, Refused, WorkerFault};
pub use gate::{Gate, Open};
pub use job::{AskJob, COPIES_MS, CloseJob, Job, MOST_AGE_MS, job_of};
pub use receipt::{Receipt, receipt_of};
pub use traits::{
    Connections, Datagrams, Downlinks, JobSource, Jobs, Monitor, Next, Received, Timer,
};
