//! Each growth of a worker's run refused alone: that of number 1, of number 2 and so on, until a run meets no refusal (`growths` of
//! ns_device). Where nothing refuses growths, each run is made once.

use crate::alone_tests::MOST;
use crate::workers::around::{Faults, NONE};
use crate::workers::frames::{JOIN_1, UP_2};
use crate::workers::runs::Reads::Frame;
use crate::workers::runs::Run::{At, LeaveOut};
use crate::workers::runs::Work::{Answer, Close, Serve};
use crate::workers::runs::{Run, Work};
use crate::workers::served::told;
use crate::workers::tests::{ACCEPTED, ASKS, HEARD, JOINS};
use ns_device::growths::was_refused;
use std::alloc::Global;
use std::sync::Wait;
use std::test::*;
use std::thread::Threads;
use std::time::Clock;

// The beginning of a text, and a part of it.
type Text = (&'static str, &'static str);

// What a worker does after others, and the texts that it may tell: first the one without a refusal.
#[derive(Clone, Copy)]
struct Alone {
    before: [Run; 4],
    work: Work,
    texts: &'static [Text],
}

// A gateway worker hears an uplink twice. If its call is refused, it is dropped, and opened when it is heard again; if its job is refused,
// the worker closes its window itself.
const GATEWAY_WORKER: Alone = Alone {
    before: [ASKS, JOINS, LeaveOut, LeaveOut],
    work: Serve(&[Frame(&UP_2, 2)], 1),
    texts: &[
        (
            "served 2 0 0 0\nclose 13 1 2 1 ",
            "opened 13 1 2 1 0\ncopied 13 1 2 1 2\n",
        ),
        ("served 2 0 1 0\nclose 13 1 2 1 ", "opened 13 1 2 1 0\n"),
        (
            "served 2 0 0 0\nup 000000000000000d 1 2 ",
            "closed 13 1 2 1 0\n",
        ),
    ],
};

// A join worker answers a ticket. If a text is refused while it is made or read, the join is refused.
const JOIN_WORKER: Alone = Alone {
    before: [ASKS, LeaveOut, LeaveOut, LeaveOut],
    work: Answer(&[(&JOIN_1, 7, ACCEPTED)]),
    texts: &[
        (
            "joined 1 0\ndown 00000000000000a1 6000000 ",
            "accepted 13 1 1237220849\n",
        ),
        ("joined 1 0\ntold ", "joinrefused\n"),
    ],
};

// What shard 13 replies to the closings of two windows.
const BOTH_CLOSED: &str = "closed 13 1 2 1 0\nacknowledged 13 1 3 1 0\n";

// A closer closes two windows. If its room is refused, it ends at once with K1 and no receipts; if its sink has no memory for a line, with
// K3. The next run closes what is left.
const CLOSER: Alone = Alone {
    before: [ASKS, JOINS, HEARD, LeaveOut],
    work: Close(&[(13, 2, 9, 1), (13, 3, 9, 1)], &[2, 2]),
    texts: &[
        (
            "close 13 1 2 1 0\nclose 13 1 3 1 0\nended 0 2\nup 000000000000000d 1 2 ",
            BOTH_CLOSED,
        ),
        ("ended 1 0\ntold ", BOTH_CLOSED),
        ("close 13 1 2 1 0\nended 3 1\n", BOTH_CLOSED),
        (
            "close 13 1 2 1 0\nclose 13 1 3 1 0\nended 3 2\n",
            BOTH_CLOSED,
        ),
    ],
};

// What is told where growth `n` of the worker is refused.
fn text_alone<R: Threads + Wait + Clock + Sync>(
    rt: &R,
    alloc: Global,
    alone: &Alone,
    n: u32,
) -> String {
    let faults = Faults { alone: n, ..NONE };
    let [first, second, third, fourth] = alone.before;
    let last = At(7, alone.work, faults);
    told(rt, alloc, 1, &[first, second, third, fourth, last])
}

// Whether it is one of these texts.
fn is_one_of(text: &str, texts: &[Text]) -> bool {
    for &(front, part) in texts {
        if text.starts_with(front) && text.contains(part) {
            return true;
        }
    }
    false
}

// Whether this may be told if a growth was refused, or was not.
fn may_be_told(alone: &Alone, text: &str, refused: bool) -> bool {
    let many = if refused { alone.texts.len() } else { 1 };
    match alone.texts.get(..many) {
        Some(texts) => is_one_of(text, texts),
        None => false,
    }
}

// The first text that may not be told.
fn other_text<R: Threads + Wait + Clock + Sync>(
    rt: &R,
    alloc: Global,
    alone: &Alone,
) -> Option<String> {
    for n in 1..MOST {
        let text = text_alone(rt, alloc, alone, n);
        let refused = was_refused(alloc);
        if !may_be_told(alone, text.as_str(), refused) {
            return Some(text);
        }
        if !refused {
            return None;
        }
    }
    None
}

/// Each growth of the run of a gateway worker, of a join worker and of a closer.
#[test]
fn each_growth_of_workers(rt: HostRuntime) {
    for alone in [&GATEWAY_WORKER, &JOIN_WORKER, &CLOSER] {
        let other = other_text(&rt, rt.alloc(), alone);
        assert!(rt; other.is_none(), "{other:?}");
    }
}
