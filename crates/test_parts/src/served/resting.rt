//! Gateway workers that rest while the others are enough.

use crate::served::sockets::{gateway_of, is_heard};
use crate::served::standing::Standing;
use ns_serve_sockets::FromSocket;
use ns_serve_state::State;
use std::net::{Net, UdpSocket};
use std::sync::Wait;
use std::sync::atomic::{AtomicBool, Ordering};
use std::thread;
use std::thread::Threads;
use std::time::{Clock, Instant};

// How often a worker rests.
const TIMES: u32 = 50;

// A rest that nobody ends takes 5 ms, and one of less was ended.
const EARLY_MS: u128 = 4;

// What ends the rests of a worker.
#[derive(Clone, Copy)]
enum EndedBy {
    Nobody,
    // A call of `wake`.
    Wake,
    // A worker that takes 64 datagrams, each of which was there before.
    Datagrams,
}

// How many gateway workers there are, and how many of the rests of one end early.
const RESTS: &[(u64, EndedBy, u32, u32)] = &[
    (1, EndedBy::Nobody, TIMES - 5, TIMES),
    (2, EndedBy::Nobody, 0, 0),
    (2, EndedBy::Wake, 1, TIMES),
    (2, EndedBy::Datagrams, 1, TIMES),
];

// How many rests end early, which are then done.
fn count_early<R: Wait + Clock>(rt: &R, state: &State, done: &AtomicBool) -> u32 {
    let mut early = 0u32;
    for _ in 0..TIMES {
        let start = Instant::now(rt);
        state.rest(rt);
        if start.is_ok_and(|it| it.elapsed(rt).is_ok_and(|took| took.as_millis() < EARLY_MS)) {
            early = early.wrapping_add(1);
        }
    }
    done.store(true, Ordering::SeqCst);
    early
}

// Takes so many datagrams of a gateway.
fn take<R: Wait + Clock>(
    rt: &Standing<'_, R>,
    from: &mut FromSocket<'_>,
    gateway: &UdpSocket,
    times: u32,
) {
    for _ in 0..times {
        let _ = is_heard(rt, from, gateway);
    }
}

// Ends rests until they are done.
fn end_rests<R: Wait + Clock>(
    rt: &Standing<'_, R>,
    state: &State,
    gateway: &UdpSocket,
    ended_by: EndedBy,
    done: &AtomicBool,
) {
    let mut from = FromSocket::new(state, None);
    for _turn in rt.forever() {
        if done.load(Ordering::SeqCst) {
            return;
        }
        match ended_by {
            EndedBy::Nobody => return,
            EndedBy::Wake => state.wake(rt),
            EndedBy::Datagrams => take(rt, &mut from, gateway, 64),
        }
    }
}

// Whether rests end early as often as is told.
fn end_so<R: Threads + Wait + Clock + Sync>(
    rt: &Standing<'_, R>,
    state: &State,
    gateway: &UdpSocket,
    (workers, ended_by, least, most): (u64, EndedBy, u32, u32),
) -> bool {
    state.gateways.store(workers, Ordering::SeqCst);
    let done = AtomicBool::new(false);
    let (early, ()) = thread::join(
        rt.host(),
        || count_early(rt.host(), state, &done),
        || end_rests(rt, state, gateway, ended_by, &done),
    );
    least <= early && early <= most
}

// Whether a worker rests 5 ms after each of 20 datagrams that it waited for a while, by the clock of the host.
fn rests_between<R: Wait + Clock>(
    rt: &Standing<'_, R>,
    state: &State,
    gateway: &UdpSocket,
) -> bool {
    let start = Instant::now(rt.host());
    rt.step_by(50);
    take(rt, &mut FromSocket::new(state, None), gateway, 20);
    rt.step_by(0);
    start.is_ok_and(|it| it
        .elapsed(rt.host())
        .is_ok_and(|took| took.as_millis() >= 50))
}

/// Whether the only worker never rests, and of two one rests for 5 ms, or until it is woken; and whether a worker wakes another, and rests,
/// as its datagrams come.
pub fn some_rest<R: Threads + Wait + Clock + Net + Sync>(
    rt: &Standing<'_, R>,
    state: &State,
) -> bool {
    let Some(gateway) = gateway_of(rt.host(), state) else {
        return false;
    };
    let mut all_end_so = true;
    for &rests in RESTS {
        all_end_so = all_end_so && end_so(rt, state, &gateway, rests);
    }
    all_end_so && rests_between(rt, state, &gateway)
}
