//! The clock as workers wait by it.
ghost use Rattle.std.specs.Prelude.{◌≡◌, ◌-◌, min};

use ns_output::Times;
use ns_outside::Timer;
use ns_serve_parts::utc_of;
use ns_serve_state::{State, now_ms};
use std::sync::Wait;
use std::thread;
use std::time::{Clock, Duration};

// How long a worker sleeps at most before it looks whether the gateway workers have ended.
const NAP_MS: u64 = 100;

/// How long to sleep before it is looked whether a time has come, in milliseconds: until then, but 100 ms at most.
pub fn nap_ms(due: u64, now: u64) -> u64
    ensures { result ≡ min (due - now) 100 }
{
    due.saturating_sub(now).min(NAP_MS)
}

/// The clock, in milliseconds, which begins at 5,000 with the server.
#[derive(Clone, Copy)]
pub struct SinceStart<'a> {
    pub state: &'a State,
}

/// The same clock for windows that are closed together: it is not asked about a time that had come when this was made.
#[derive(Clone, Copy)]
pub struct SinceMoment<'a> {
    since: SinceStart<'a>,
    moment: u64,
}

impl<'a> SinceMoment<'a> {
    /// The clock from this moment on.
    pub fn now<R: Clock>(rt: &R, state: &'a State) -> SinceMoment<'a> {
        SinceMoment {
            since: SinceStart { state },
            moment: now_ms(rt, state),
        }
    }
}

/// By the wall clock, when the first copy came of an uplink whose window was opened at this time, and the moment now.
pub fn times_of<R: Clock>(rt: &R, state: &State, opened: u64) -> Option<Times> {
    let written = rt.since_1970().ok()?;
    let ago = Duration::from_millis(now_ms(rt, state).saturating_sub(opened));
    Some(Times {
        heard: utc_of(written.saturating_sub(ago))?,
        written: utc_of(written)?,
    })
}

impl<'a, R: Wait + Clock> Timer<R> for SinceStart<'a> {
    fn now(&self, rt: &R) -> u64 {
        now_ms(rt, self.state)
    }

    // Waits no longer once no gateway worker is left, since no copy can come then.
    fn until(&self, rt: &R, due: u64) {
        for _turn in rt.forever() {
            let now = now_ms(rt, self.state);
            if now >= due || self.state.is_deaf() || self.state.is_broken() {
                return;
            }
            thread::sleep(rt, Duration::from_millis(nap_ms(due, now)));
        }
    }

    fn times(&self, rt: &R, due: u64) -> Option<Times> {
        let opened = due.saturating_sub(u64::from(self.state.window_ms));
        times_of(rt, self.state, opened)
    }
}

impl<'a, R: Wait + Clock> Timer<R> for SinceMoment<'a> {
    fn now(&self, rt: &R) -> u64 {
        now_ms(rt, self.since.state)
    }

    fn until(&self, rt: &R, due: u64) {
        if due > self.moment {
            self.since.until(rt, due);
        }
    }

    fn times(&self, rt: &R, due: u64) -> Option<Times> {
        self.since.times(rt, due)
    }
}
