//! The clock of all threads.
ghost use Rattle.std.specs.Prelude.{◌≡◌, ◌+◌, ◌-◌, ◌/◌, ◌^◌, ◌≤◌, min};
ghost use Rattle.std.specs.Duration.{as_nanos};

use crate::state::State;
use std::io;
use std::time::{Clock, Duration};

/// What the clock tells when the server begins, so that what was asked for in an earlier life of the program is too old at once.
pub const BEGIN_MS: u64 = 5_000;

// The whole milliseconds of a time.
fn ms_of(time: Duration) -> u64
    ensures { result ≡ min (as_nanos time / 1_000_000) (2 ^ 64 - 1) }
{
    u64::try_from(time.as_millis()).unwrap_or(u64::MAX)
}

// What the clock tells at this millisecond of the system's clock, where the server began at that one.
fn told_ms(now: u64, start: u64) -> u64
    ensures { result ≡ min (now - start + 5_000) (2 ^ 64 - 1) }
{
    now.saturating_sub(start).saturating_add(BEGIN_MS)
}

/// The millisecond of the system's clock, which begins anywhere.
pub(crate) fn system_ms<R: Clock>(rt: &R) -> io::Result<u64> {
    Ok(ms_of(rt.monotonic()?))
}

/// What the clock tells.
pub fn now_ms<R: Clock>(rt: &R, state: &State) -> u64
    ensures { 5_000 ≤ result }
{
    match system_ms(rt) {
        Ok(now) => told_ms(now, state.start_ms),
        Err(_) => u64::MAX,
    }
}

/// When a window is closed that is opened at this time.
pub fn closing_of(opened: u64, window_ms: u32) -> u64
    ensures { result ≡ min (opened + window_ms) (2 ^ 64 - 1) }
{
    opened.saturating_add(u64::from(window_ms))
}
