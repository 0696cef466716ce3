//! How servers have ended so far.

use crate::parties::around::Held;
use crate::parties::network::nap;
use std::sync::atomic::{AtomicU64, Ordering};
use std::time::Clock;

/// How many lives have ended, how often the record of one was looked after, and the clock.
#[derive(Drop)]
pub struct Ended {
    pub lives: AtomicU64,
    pub looks: AtomicU64,
    pub held: Held,
}

impl Ended {
    /// None has ended, and the clock stands at this time.
    pub fn new(stands_ms: u64) -> Ended {
        Ended {
            lives: AtomicU64::new(0),
            looks: AtomicU64::new(0),
            held: Held {
                ms: AtomicU64::new(stands_ms),
                reads: AtomicU64::new(0),
            },
        }
    }

    /// Waits until so many lives have ended, for ten seconds at most.
    pub fn wait_for<R: Clock>(&self, rt: &R, lives: u64) -> Option<()> {
        for _ in 0..1_000 {
            if self.lives.load(Ordering::SeqCst) >= lives {
                return Some(());
            }
            nap(rt);
        }
        None
    }
}
