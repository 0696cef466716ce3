//! The tickets about which the join server is to be asked, in the order in which they came.
ghost use Rattle.std.specs.Prelude.{◌≡◌, ◌+◌, ◌<◌, ◌↔◌, IsTrue};

use ns_outside::{AskJob, MOST_AGE_MS};
use std::alloc::Global;
use std::collections::VecDeque;

/// Tickets that wait, the oldest first.
#[derive(Drop)]
pub struct Asks {
    jobs: VecDeque<AskJob>,
}

// Whether the join server is not to be asked about a ticket any more.
fn is_stale(job: &AskJob, now: u64) -> bool
    ensures { IsTrue result ↔ (job.now.since + 4500 < now) }
{
    now.saturating_sub(job.since) > MOST_AGE_MS
}

impl Asks {
    ghost use Rattle.std.specs.Prelude.{◌≡◌, ◌++◌, ◌∷◌, [], slice_get, IfErr, OnOk, OnErr};
    ghost use Rattle.std.specs.Option.{option_and_then, option_map, option_map_or};
    ghost use Rattle.std.specs.List.{remove};
    ghost use Rattle.ns_serve_parts.specs.Asks.{due_front, next_place, wait_ms};

    /// No ticket waits.
    pub fn new(alloc: Global) -> Asks
        ensures { result.jobs.items ≡ [] }
    {
        Asks {
            jobs: VecDeque::new(alloc),
        }
    }

    /// Whether no ticket waits.
    pub fn is_empty(&self) -> bool
        ensures { IsTrue result ↔ (self.now.jobs.items ≡ []) }
    {
        self.jobs.is_empty()
    }

    /// A ticket more, or the ticket back where a growth was refused.
    pub fn put(&mut self, job: AskJob) -> Result<(), AskJob>
        ensures last { OnOk result (self.new.jobs.items ≡ self.old.jobs.items ++ job ∷ []) }
        ensures back { IfErr result (λ j. j ≡ job) }
        ensures refused { OnErr result (self.new.jobs.items ≡ self.old.jobs.items) }
    {
        match self.jobs.push_back(job) {
            Ok(()) => Ok(()),
            Err(refused) => Err(refused.value),
        }
    }

    /// The ticket to be answered at this time, if there is one: the oldest, where it is too old to be asked about, so that its device is
    /// free to ask again; else the last before the first that is not due, which is the newest due one, as tickets are due in their order.
    pub fn take(&mut self, now: u64) -> Option<AskJob>
        ensures gives { result ≡ option_and_then (slice_get self.old.jobs.items) (next_place now self.old.jobs.items) }
        ensures rest { self.new.jobs.items ≡ option_map_or (remove self.old.jobs.items) (next_place now self.old.jobs.items) self.old.jobs.items }
    {
        let place = self.next_place(now)?;
        self.jobs.remove(place)
    }

    // The place of the ticket to be answered at this time.
    fn next_place(&self, now: u64) -> Option<usize>
        ensures { result ≡ next_place now self.now.jobs.items }
    {
        match self.jobs.front() {
            Some(job) if is_stale(job, now) => Some(0),
            _ => self.due_front(now).checked_sub(1),
        }
    }

    /// In how many milliseconds a ticket is to be answered, if one waits, where none is at this time.
    pub fn wait_ms(&self, now: u64) -> Option<u64>
        ensures { result ≡ option_map (wait_ms now) (slice_get self.now.jobs.items 0) }
    {
        let job = self.jobs.front()?;
        let stale = job.since.saturating_add(MOST_AGE_MS + 1);
        Some(job.due.min(stale).saturating_sub(now))
    }

    // How many of the tickets at the front are due.
    fn due_front(&self, now: u64) -> usize
        ensures { result ≡ due_front now self.now.jobs.items }
    {
        let mut due = 0;
        while due < self.jobs.len() && self.jobs[due].due <= now {
            due += 1;
        }
        due
    }
}
