//! Log lines that come once a minute at most.
ghost use Rattle.std.specs.Prelude.{◌+◌, ◌≤◌, ◌↔◌, IsTrue};

use std::sync::atomic::{AtomicU64, Ordering};

// Between two such lines, in milliseconds.
const MINUTE_MS: u64 = 60_000;

/// What is logged once a minute at most: when it was last, in milliseconds of the server's clock, and how often it happened since.
#[derive(Drop)]
pub struct Seldom {
    logged_ms: AtomicU64,
    waiting: AtomicU64,
}

/// Whether a minute has passed.
pub(crate) fn is_minute_later(last_ms: u64, now_ms: u64) -> bool
    ensures { IsTrue result ↔ (last_ms + 60000 ≤ now_ms) }
{
    now_ms >= MINUTE_MS && now_ms - MINUTE_MS >= last_ms
}

impl Seldom {
    /// It has not happened yet.
    pub fn new() -> Seldom {
        Seldom {
            logged_ms: AtomicU64::new(0),
            waiting: AtomicU64::new(0),
        }
    }

    /// It happened once more. Where its line is due, how often since the one before.
    pub fn happened(&self, now_ms: u64) -> Option<u64> {
        let count = self
            .waiting
            .fetch_add(1, Ordering::SeqCst)
            .saturating_add(1);
        let last_ms = self.logged_ms.load(Ordering::SeqCst);
        if last_ms > 0 && !is_minute_later(last_ms, now_ms) {
            return None;
        }
        let was = self
            .logged_ms
            .compare_exchange(last_ms, now_ms.max(1), Ordering::SeqCst, Ordering::SeqCst);
        if was.is_err() {
            return None;
        }
        self.waiting.fetch_sub(count, Ordering::SeqCst);
        Some(count)
    }
}
