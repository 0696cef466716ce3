//! The tickets that wait for join workers.
ghost use Rattle.std.specs.Prelude.{◌≡◌, IfErr};

use ns_outside::AskJob;
use ns_serve_parts::Asks;
use std::alloc::Global;
use std::sync::{Condvar, Mutex, Wait};

/// The tickets that wait, and a bell for the join workers that wait for one.
#[derive(Drop)]
pub struct AskQueue {
    pub asks: Mutex<Asks>,
    pub bell: Condvar,
}

impl AskQueue {
    /// No ticket waits.
    pub(crate) fn new(alloc: Global) -> AskQueue {
        AskQueue {
            asks: Mutex::new(Asks::new(alloc)),
            bell: Condvar::new(),
        }
    }

    /// A ticket more, or the ticket back where a growth was refused. One join worker is woken.
    pub fn put<R: Wait>(&self, rt: &R, job: AskJob) -> Result<(), AskJob>
        ensures back { IfErr result (λ back. back ≡ job) }
    {
        let mut asks = self.asks.lock(rt);
        let put = asks.put(job);
        drop(asks);
        self.bell.notify_one();
        put
    }
}
