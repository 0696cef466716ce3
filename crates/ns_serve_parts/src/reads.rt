//! How many datagrams came.

use crate::counts::value;
use crossbeam_utils::CachePadded;
use std::sync::atomic::{AtomicU64, Ordering};

// How many workers count in a place of their own. Of more, some share one.
const PLACES: usize = 16;

/// How many datagrams came. Each gateway worker counts in a place of its own, and no two places share a cache line, so that workers do not
/// wait for each other. Where the server stops after so many, all count in the first, which tells when they are enough.
#[derive(Drop)]
pub struct Reads {
    most: u64,
    workers: AtomicU64,
    counts: [CachePadded<AtomicU64>; PLACES],
}

impl Reads {
    /// None came. The server stops after so many, if it is to stop.
    pub fn new(stop_after: Option<u32>) -> Reads {
        Reads {
            most: stop_after.map_or(u64::MAX, u64::from),
            workers: AtomicU64::new(0),
            counts: Default::default(),
        }
    }

    // Whether the server stops after so many.
    fn ends(&self) -> bool {
        self.most < u64::MAX
    }

    /// In which place a further worker counts.
    pub fn place(&self) -> usize {
        if self.ends() {
            return 0;
        }
        let worker = self.workers.fetch_add(1, Ordering::SeqCst);
        worker as usize % PLACES
    }

    /// One more came to a worker: how many it, and those that share its place, had counted, or nothing where these were enough.
    pub fn add_one(&self, place: usize) -> Option<u64> {
        let before = self.counts[place % PLACES].fetch_add(1, Ordering::SeqCst);
        if before < self.most {
            Some(before)
        } else {
            None
        }
    }

    /// Whether as many came as the server stops after.
    pub fn are_enough(&self) -> bool {
        self.ends() && value(&self.counts[0]) >= self.most
    }

    /// How many came, of which none is counted that came when they were enough.
    pub fn all(&self) -> u64 {
        let mut all = 0u64;
        for count in &self.counts {
            all = all.saturating_add(value(count));
        }
        all.min(self.most)
    }
}
