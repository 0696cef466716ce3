//! When a gateway worker rests, and when it wakes another.
ghost use Rattle.std.specs.Prelude.{◌≡◌, true, false, ◌+◌, ◌<◌, ◌≤◌, ◌⊎◌, ◌↔◌};
ghost use Rattle.std.specs.Duration.{as_nanos};

use std::time::Duration;

// A datagram that came sooner after its receive began was there before, in nanoseconds.
const THERE_NS: u128 = 10_000;

// One that came so long after it or later was waited for.
const WAITED_NS: u128 = 25_000;

// Where one is waited for so long, a worker that rests would be woken for nearly each datagram.
const SELDOM_NS: u128 = 1_000_000;

// After so many datagrams in a row that were there before, another worker is woken.
const MANY: u32 = 64;

/// How the last datagrams of a worker came.
#[derive(Clone, Copy)]
pub(crate) struct Pace {
    // How many in a row were there before.
    there: u32,
    // Whether the last one was waited for.
    waited: bool,
}

impl Pace {
    /// None came.
    pub fn new() -> Pace
        ensures none { result.there ≡ 0 }
        ensures waited { result.waited ≡ false }
    {
        Pace {
            there: 0,
            waited: false,
        }
    }

    /// A datagram came so long after its receive began: whether another worker is to be woken.
    pub fn comes(&mut self, after: Duration) -> bool
        ensures wakes { (result ≡ true) ↔ ((as_nanos after < 10_000) × (63 ≤ self.old.there)) }
        ensures counts { as_nanos after < 10_000 → self.old.there < 63 → self.new.there ≡ self.old.there + 1 }
        ensures anew { (10_000 ≤ as_nanos after) ⊎ (63 ≤ self.old.there) → self.new.there ≡ 0 }
        ensures waited { (self.new.waited ≡ true) ↔ ((25_000 ≤ as_nanos after) × (as_nanos after < 1_000_000)) }
    {
        let after = after.as_nanos();
        self.waited = after >= WAITED_NS && after < SELDOM_NS;
        if after >= THERE_NS {
            self.there = 0;
            return false;
        }
        if self.there >= MANY - 1 {
            self.there = 0;
            return true;
        }
        self.there += 1;
        false
    }

    /// Whether the worker is to rest before its next receive, which is asked once.
    pub fn rests(&mut self) -> bool
        ensures rests { result ≡ self.old.waited }
        ensures once { self.new.waited ≡ false }
        ensures same { self.new.there ≡ self.old.there }
    {
        let waited = self.waited;
        self.waited = false;
        waited
    }
}
