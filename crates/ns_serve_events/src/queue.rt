//! How tickets come to join workers.
ghost use Rattle.std.specs.Prelude.{◌≤◌, ◌*◌, None, IfSome};
ghost use Rattle.std.specs.Duration.{as_nanos};

use ns_outside::{AskJob, JobSource, Next};
use ns_serve_state::{State, now_ms};
use std::sync::Wait;
use std::time::{Clock, Duration};

// How long a join worker sleeps at most before it looks whether the server stops.
const NAP_MS: u64 = 100;

// How long a join worker sleeps whose next ticket is due in so many milliseconds, if there is one.
fn nap_of(wait_ms: Option<u64>) -> Duration
    ensures longest { as_nanos result ≤ 100_000_000 }
    ensures due { IfSome wait_ms (λ ms. as_nanos result ≤ ms * 1_000_000) }
{
    Duration::from_millis(wait_ms.unwrap_or(NAP_MS).min(NAP_MS))
}

// The next ticket to be answered. It is waited for until the server stops, or no gateway worker is left and no ticket.
fn next_ticket<R: Wait + Clock>(rt: &R, state: &State) -> Next<AskJob> {
    let queue = &state.asks;
    let mut asks = queue.asks.lock(rt);
    for _turn in rt.forever() {
        if state.is_over() || (state.is_deaf() && asks.is_empty()) {
            return Next::End;
        }
        let now = now_ms(rt, state);
        if let Some(job) = asks.take(now) {
            return Next::Job(job);
        }
        let nap = nap_of(asks.wait_ms(now));
        let (woken, _) = queue.bell.wait_timeout(rt, asks, nap);
        asks = woken;
    }
    unreachable!()
}

/// The tickets of the queue, for one join worker.
#[derive(Drop)]
pub struct FromQueue<'a> {
    pub state: &'a State,
}

impl<'a, R: Wait + Clock> JobSource<R, AskJob> for FromQueue<'a> {
    ghost given = { λ _. None };

    fn take(&mut self, rt: &R) -> Next<AskJob> {
        next_ticket(rt, self.state)
    }
}
