//! The jobs that follow replies.
ghost use Rattle.std.specs.Prelude.{◌≡◌};
ghost use Rattle.ns_outside.specs.Job.{due_at, due_of, job_of};

use ns_calls::Reply;
use ns_types::{Ticket, WindowName};

/// How old a ticket may be when the join server is asked about it, in milliseconds: a Join-Accept is of use within its receive window
/// alone, which opens 5 s after the request (LoRaWAN L2 1.0.4, JOIN_ACCEPT_DELAY1), and the join server and the gateway take a while.
pub const MOST_AGE_MS: u64 = 4_500;

/// How long to wait for the copies of a Join-Request at most, in milliseconds: what several gateways heard comes within this time, and
/// a ticket that waits longer is soon too old to be asked about.
pub const COPIES_MS: u32 = 1_000;

/// A window that is to be closed once it is due, in milliseconds of the workers' clock.
#[derive(Clone, Copy, Debug, PartialEq, Eq)]
pub struct CloseJob {
    pub name: WindowName,
    pub due: u64,
}

/// A ticket that the join server is to be asked about: since when, and from when its copies' time has passed, in milliseconds of the
/// workers' clock.
#[derive(Clone, Copy, Debug, PartialEq, Eq)]
pub struct AskJob {
    pub ticket: Ticket,
    pub since: u64,
    pub due: u64,
}

/// What follows a reply.
#[derive(Clone, Copy, Debug, PartialEq, Eq)]
pub enum Job {
    Close(CloseJob),
    Ask(AskJob),
}

// When a time of so many milliseconds has passed.
fn due_at(now: u64, window_ms: u32) -> u64
    ensures { result ≡ due_at now window_ms }
{
    now.saturating_add(u64::from(window_ms))
}

/// The job that follows a reply at a time, if one does: a window that was opened, in any round, is to be closed once `window_ms`
/// milliseconds have passed, and the join server is to be asked about a ticket once its copies' time has passed, which is as long, but
/// at most `COPIES_MS`.
pub fn job_of(reply: &Reply, now: u64, window_ms: u32) -> Option<Job>
    ensures { result ≡ job_of reply.now now window_ms }
{
    match *reply {
        Reply::Opened { window } | Reply::Again { window } => Some(Job::Close(CloseJob {
            name: window,
            due: due_at(now, window_ms),
        })),
        Reply::Ask { ticket } => Some(Job::Ask(AskJob {
            ticket,
            since: now,
            due: due_at(now, window_ms.min(COPIES_MS)),
        })),
        _ => None,
    }
}

impl Job {
    /// When it is due.
    pub fn due(&self) -> u64
        ensures { result ≡ due_of self.now }
    {
        match self {
            Job::Close(job) => job.due,
            Job::Ask(job) => job.due,
        }
    }
}
