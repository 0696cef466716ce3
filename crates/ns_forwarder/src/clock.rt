//! A gateway's 32-bit counter of microseconds, carried on to 64 bits.

ghost use Rattle.std.specs.Prelude.{◌≡◌, ◌<◌, ◌≤◌, ◌%◌, ◌^◌};
ghost use Rattle.ns_forwarder.specs.Clock.{expected, nearest, moment_at, clock_after};

/// How far a counter of 32 bits counts.
const WRAP: u128 = 0x1_0000_0000;

const HALF: u128 = 0x8000_0000;
/// How far a moment of 64 bits counts.
const MOMENTS: u128 = 0x1_0000_0000_0000_0000;

/// The moment that a counter was read as, and when it was, both in microseconds.
#[derive(Clone, Copy)]
pub struct Reading {
    /// The moment, by the gateway's clock.
    pub moment: u64,
    /// When it was read, by a clock of this machine that only rises.
    pub at: u64,
}

/// What is known of a gateway's counter: its latest reading, or nothing.
#[derive(Clone, Copy, Default)]
pub struct Clock {
    /// The latest reading.
    pub latest: Option<Reading>,
}

impl Clock {
    /// The moment of a counter that is read now, by this machine's clock: of the numbers with the counter's 32 bits the one that is
    /// nearest to where this machine's clock says that the gateway's must be. So a gateway may be silent for longer than the 71.6
    /// minutes in which its counter wraps.
    pub fn moment(&self, counter: u32, now: u64) -> u64
        ensures is { result ≡ moment_at self.now counter now }
        ensures counter { result % 2 ^ 32 ≡ counter }
    {
        match self.latest {
            Some(latest) => nearest(counter, expected(&latest, now)),
            None => counter as u64,
        }
    }

    /// The same, and the reading is the latest from now on.
    pub fn read(&mut self, counter: u32, now: u64) -> u64
        ensures is { result ≡ moment_at self.old counter now }
        ensures counter { result % 2 ^ 32 ≡ counter }
        ensures clock { self.new ≡ clock_after self.old counter now }
    {
        let moment = self.moment(counter, now);
        self.latest = Some(Reading { moment, at: now });
        moment
    }
}

// Where a gateway's clock must be now.
fn expected(latest: &Reading, now: u64) -> u128
    ensures is { result ≡ expected latest.now now }
    ensures most { result < 2 ^ 65 }
{
    u128::from(latest.moment) + u128::from(now.saturating_sub(latest.at))
}

// The moment with a counter's 32 bits that is nearest to the one expected.
fn nearest(counter: u32, expected: u128) -> u64
    requires { expected < 2 ^ 65 }
    ensures is { result ≡ nearest counter expected % 2 ^ 64 }
    ensures counter { result % 2 ^ 32 ≡ counter }
{
    let ahead = (u128::from(counter) + WRAP - expected % WRAP) % WRAP;
    let moment = expected + ahead;
    let nearest = if ahead < HALF || moment < WRAP {
        moment
    } else {
        moment - WRAP
    };
    (nearest % MOMENTS) as u64
}
