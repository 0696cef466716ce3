//! Gateway workers that rest while the others are enough.
ghost use Rattle.std.specs.Prelude.{◌≡◌, true, ◌+◌, ◌<◌, ◌↔◌};
ghost use Rattle.std.specs.Duration.{as_nanos};

use std::sync::{Condvar, Mutex, Wait};
use std::time::{Clock, Duration};

// For how long a worker rests at most, so that the datagrams that come while all others are held up find room in the socket.
const REST_MS: u64 = 5;

// For how long a worker rests.
fn longest_rest() -> Duration
    ensures { as_nanos result ≡ 5_000_000 }
{
    Duration::from_millis(REST_MS)
}

// Whether one of so many workers may rest beside those that do: one at least does not.
fn may_rest(resting: u64, workers: u64) -> bool
    ensures { (result ≡ true) ↔ (resting + 1 < workers) }
{
    resting < workers.saturating_sub(1)
}

/// How many gateway workers rest, and a bell for them.
#[derive(Drop)]
pub(crate) struct Resting {
    count: Mutex<u64>,
    bell: Condvar,
}

impl Resting {
    // None rests.
    pub(crate) fn new() -> Resting {
        Resting {
            count: Mutex::new(0),
            bell: Condvar::new(),
        }
    }

    // Rests until it is woken, 5 ms at most, or not at all where it is the only one of so many workers that does not rest.
    #[inline(never)]
    pub(crate) fn rest<R: Wait + Clock>(&self, rt: &R, workers: u64) {
        let mut count = self.count.lock(rt);
        if !may_rest(*count, workers) {
            return;
        }
        *count += 1;
        let (mut count, _) = self.bell.wait_timeout(rt, count, longest_rest());
        *count = count.saturating_sub(1);
    }

    // Wakes one that rests, if there is one.
    #[inline(never)]
    pub(crate) fn wake<R: Wait>(&self, rt: &R) {
        if *self.count.lock(rt) > 0 {
            self.bell.notify_one();
        }
    }
}
