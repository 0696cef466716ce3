//! What workers do with jobs.
ghost use Rattle.std.specs.Prelude.{◌≡◌, ◌↔◌, ℕ, false, None, IsTrue};
ghost use Rattle.ns_outside.specs.Job.{job_of};
ghost use Rattle.ns_workers.specs.Job.{call_at_once, IsTooOld};

use ns_calls::{Call, Outcome, Reply};
use ns_outside::{AskJob, CloseJob, Job, MOST_AGE_MS};

// Whether a job follows a reply, at whatever time.
pub(crate) fn leads_to_job(reply: &Reply) -> bool
    ensures { result ≡ false → (now window_ms : ℕ) → job_of reply.now now window_ms ≡ None }
{
    match reply {
        Reply::Opened { .. } | Reply::Again { .. } | Reply::Ask { .. } => true,
        _ => false,
    }
}

// The call that does a job at once: it closes the window, or answers the ticket as failed.
pub(crate) fn call_at_once(job: &Job) -> Call
    ensures { result ≡ call_at_once job.now }
{
    match *job {
        Job::Close(CloseJob { name, due: _ }) => Call::Close { window: name },
        Job::Ask(
            AskJob {
                ticket,
                since: _,
                due: _,
            },
        ) => Call::JoinReply {
            ticket,
            outcome: Outcome::Failed,
        },
    }
}

// Whether a ticket is too old to be asked about.
pub(crate) fn is_too_old(job: &AskJob, now: u64) -> bool
    ensures { IsTrue result ↔ IsTooOld job.now now }
{
    now.saturating_sub(job.since) > MOST_AGE_MS
}
