//! Each counter with a number of its own.

use crate::served::states::TICKET;
use ns_calls::Reply;
use ns_link::LinkFault;
use ns_outside::Refused;
use ns_serve_parts::{Counts, Made};
use ns_serve_state::State;
use ns_types::{DevAddr, DevEui, DevNonce, WindowName};
use ns_views::ViewFault;
use std::sync::atomic::Ordering;

const EUI: DevEui = DevEui(13);

const ADDR: DevAddr = DevAddr(0x49be_7df1);

const NONCE: DevNonce = DevNonce(1);

const WINDOW: WindowName = WindowName {
    eui: EUI,
    session: 1,
    fcnt: 2,
    round: 1,
};

/// A device's first session.
pub fn accepted(eui: DevEui) -> Reply {
    Reply::Accepted {
        eui,
        session: 1,
        addr: ADDR,
    }
}

/// Refusals in the order of their counts, and how often each comes, from 21 times on.
pub const REFUSALS: &[(Refused, u32)] = &[
    (Refused::Link(LinkFault::Short), 21),
    (Refused::Link(LinkFault::Version), 22),
    (Refused::Link(LinkFault::Kind), 23),
    (Refused::Link(LinkFault::Length), 24),
    (Refused::Link(LinkFault::Frequency), 25),
    (Refused::Link(LinkFault::DataRate), 26),
    (Refused::View(ViewFault::TooShort), 27),
    (Refused::View(ViewFault::Major), 28),
    (Refused::View(ViewFault::FrameType), 29),
    (Refused::View(ViewFault::Options), 30),
    (Refused::View(ViewFault::JoinLength), 31),
    (Refused::View(ViewFault::TooLong), 32),
];

/// Replies in the order of their counts, and how often each comes: 42 windows and 18 tickets are open then.
pub const REPLIES: &[(Reply, u32)] = &[
    (Reply::Opened { window: WINDOW }, 40),
    (
        Reply::Copied {
            window: WINDOW,
            place: 1,
        },
        2,
    ),
    (Reply::Crowded { window: WINDOW }, 3),
    (
        Reply::Old {
            eui: EUI,
            session: 1,
            fcnt: 2,
        },
        4,
    ),
    (Reply::NoSession, 5),
    (Reply::Busy { eui: EUI }, 6),
    (Reply::Ask { ticket: TICKET }, 60),
    (Reply::JoinCopied { place: 1 }, 8),
    (Reply::JoinCrowded, 9),
    (Reply::NonceOld { greatest: NONCE }, 10),
    (Reply::NoDevice, 11),
    (Reply::JoinBusy, 12),
    (
        Reply::Accepted {
            eui: EUI,
            session: 1,
            addr: ADDR,
        },
        13,
    ),
    (Reply::JoinRefused, 14),
    (Reply::JoinStale { greatest: NONCE }, 15),
    (Reply::NoTicket, 16),
    (
        Reply::Closed {
            window: WINDOW,
            ack: None,
        },
        17,
    ),
    (Reply::NoWindow, 18),
    (Reply::Again { window: WINDOW }, 19),
];

// Counts each refusal.
fn count_refusals(counts: &Counts) {
    for &(why, times) in REFUSALS {
        for _ in 0..times {
            counts.refused(why);
        }
    }
}

// Counts each reply, each time in another shard.
fn count_replies(made: &Made) {
    for (reply, times) in REPLIES {
        for time in 0..*times {
            made.add_one((time % 16) as u8, reply);
        }
    }
}

// Counts each thing else, from 101 times on.
fn count_others(counts: &Counts) {
    let others = [
        &counts.dropped,
        &counts.late,
        &counts.unreceived,
        &counts.unanswered,
        &counts.unsent,
        &counts.stale,
        &counts.unwritten,
    ];
    for (counter, n) in others.iter().zip(101..) {
        counter.store(n, Ordering::SeqCst);
    }
    for ms in [25, 26, 5001] {
        counts.exchanges.add(ms);
    }
    for ms in [5, 6, 7, 8] {
        counts.closings.add(ms);
    }
}

/// Counts each thing, so that no two have the same number. Of more datagrams than the server takes came 1,000,003.
pub fn count_all(state: &State) {
    count_refusals(&state.counts);
    count_replies(&state.made);
    count_others(&state.counts);
    for _ in 0..1_000_003 {
        let _ = state.read.add_one(0);
    }
}
