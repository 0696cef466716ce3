//! How long something took, by how often.
use std::sync::atomic::{AtomicU64, Ordering};

// How many bounds there are.
const BOUNDS: usize = 9;

// Each bound in milliseconds, and in seconds as it is written.
const LIMITS: [(u64, &str); BOUNDS] = [
    (5, "0.005"),
    (25, "0.025"),
    (100, "0.1"),
    (250, "0.25"),
    (500, "0.5"),
    (1_000, "1.0"),
    (2_500, "2.5"),
    (5_000, "5.0"),
    (u64::MAX, "+Inf"),
];

/// How often something took at most so long: each time is counted at the first bound that is no less.
#[derive(Drop)]
pub struct Times {
    counts: [AtomicU64; BOUNDS],
    sum_ms: AtomicU64,
}

// The place of the first bound that a number of milliseconds is not over.
fn place_of(ms: u64) -> usize {
    for (place, limit) in LIMITS.iter().enumerate() {
        if ms <= limit.0 {
            return place;
        }
    }
    BOUNDS - 1
}

impl Times {
    /// None yet.
    pub fn new() -> Times {
        Times {
            counts: Default::default(),
            sum_ms: AtomicU64::new(0),
        }
    }

    /// Something took so many milliseconds.
    pub fn add(&self, ms: u64) {
        if let Some(count) = self.counts.get(place_of(ms)) {
            count.fetch_add(1, Ordering::SeqCst);
        }
        self.sum_ms.fetch_add(ms, Ordering::SeqCst);
    }

    /// Each bound in seconds, with how many times are at most as long. The last one has all.
    pub fn within(&self) -> [(&'static str, u64); BOUNDS] {
        let mut within = [("", 0); BOUNDS];
        let mut all: u64 = 0;
        for place in 0..BOUNDS {
            all = all.saturating_add(self.counts[place].load(Ordering::SeqCst));
            within[place] = (LIMITS[place].1, all);
        }
        within
    }

    /// All of them together, in milliseconds.
    pub fn sum_ms(&self) -> u64 {
        self.sum_ms.load(Ordering::SeqCst)
    }
}
