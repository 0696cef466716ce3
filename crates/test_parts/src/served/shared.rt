//! What an earlier life left open, downlinks that wait, and the times of a line.

use crate::served::standing::Standing;
use crate::served::states::{TICKET, downlink};
use crossbeam_channel::{Sender, unbounded};
use ns_calls::Bytes;
use ns_output::{Times, Utc};
use ns_outside::{AskJob, CloseJob, Downlinks, JobSource, Next, Timer};
use ns_serve_events::{FromQueue, SinceStart, hand_on};
use ns_serve_sockets::Later;
use ns_serve_state::State;
use ns_types::{DevEui, WindowName};
use std::alloc::Global;
use std::sync::Wait;
use std::sync::atomic::Ordering;
use std::time::Clock;

// The job of a window that an earlier life left open with a ticket.
const CLOSED: CloseJob = CloseJob {
    name: WindowName {
        eui: DevEui(13),
        session: 1,
        fcnt: 2,
        round: 1,
    },
    due: 7000,
};

// The job of the ticket.
const LOST: AskJob = AskJob {
    ticket: TICKET,
    since: 0,
    due: 0,
};

// Whether such a window and the ticket are handed on.
fn hand_on_both<R: Wait + Clock>(
    rt: &Standing<'_, R>,
    alloc: Global,
    state: &State,
    closes: &Sender<CloseJob>,
) -> bool {
    let windows = Vec::from_slice(alloc, &[CLOSED.name]);
    let tickets = Vec::from_slice(alloc, &[TICKET]);
    match (windows, tickets) {
        (Ok(windows), Ok(tickets)) => hand_on(rt, state, windows, tickets, closes).is_ok(),
        _ => false,
    }
}

// Whether that job comes of the window.
fn is_closed<R: Wait + Clock>(rt: &Standing<'_, R>, alloc: Global, state: &State) -> bool {
    match unbounded::<CloseJob, Global>(alloc) {
        Ok((sender, receiver)) => {
            hand_on_both(rt, alloc, state, &sender) && receiver.try_recv(rt).ok() == Some(CLOSED)
        }
        Err(_) => false,
    }
}

/// Whether a window and a ticket that an earlier life left open become jobs.
pub fn are_handed_on<R: Wait + Clock>(rt: &Standing<'_, R>, alloc: Global, state: &State) -> bool {
    let mut queue = FromQueue { state };
    is_closed(rt, alloc, state) && queue.take(rt) == Next::Job(LOST) && queue.take(rt) == Next::End
}

/// Whether a downlink is taken, and of two batches is sent with one, which is counted, since it has nowhere to go.
pub fn is_sent_once<R: Wait + Clock>(rt: &Standing<'_, R>, alloc: Global, state: &State) -> bool {
    let Ok(mut later) = Later::new(alloc, state, 1) else {
        return false;
    };
    let is_taken = later.send(rt, &downlink(Bytes::of(&[0x60; 12])));
    later.send_all(rt);
    later.send_all(rt);
    is_taken && state.counts.unsent.load(Ordering::SeqCst) == 1
}

// When a line is written, and when what it tells was heard.
const WRITTEN: Utc = Utc {
    year: 2025,
    month: 11,
    day: 24,
    hour: 20,
    minute: 43,
    second: 20,
    millisecond: 123,
};

const HEARD: Utc = Utc {
    second: 17,
    millisecond: 623,
    ..WRITTEN
};

/// Whether a line has these times half a second after its window was closed.
pub fn line_has_its_times<R: Wait + Clock>(rt: &Standing<'_, R>, state: &State) -> bool {
    rt.stand_at(500);
    let times = SinceStart { state }.times(rt, 5000);
    times
        == Some(Times {
            heard: HEARD,
            written: WRITTEN,
        })
}
