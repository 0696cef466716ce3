//! Series of calls by one pass, and how many of them did what they are for.

use crate::caller::{Caller, reply_to};
use ns_calls::{Call, Reply};
use ns_device::traffic::{closing, join, join_reply, uplink};

/// The device of most tests, which is its shard too.
pub const DEVICE: u32 = 13;

/// How many windows are opened of the devices of one shard, eight of each.
pub const WINDOWS: u32 = 100_000;

/// Which calls are made.
#[derive(Clone, Copy)]
pub enum Series {
    /// A device joins, opens eight windows and four tickets, and then closes those windows and answers those tickets: 26 calls.
    Opening,
    /// A device joins, and each of its uplinks is heard and closed.
    Filling(u32),
    /// Closings of a window of a device that is not open.
    Late(u32),
    /// The devices of one shard join, each by two calls.
    Joining,
    /// Eight uplinks of each of them.
    Hearing,
    /// The closings of their windows, the last first.
    Closing,
}

/// The number of a device of shard 13.
pub fn of_one_shard(number: u32) -> u32 {
    number.wrapping_mul(16).wrapping_add(13)
}

/// The closing of a window of the devices of one shard.
pub fn closing_at(window: u32) -> Call {
    closing(of_one_shard(window / 8), 1, window % 8)
}

// A call by which a device joins.
fn joining_at(device: u32, nonce: u16, place: u32) -> Call {
    if place % 2 == 0 {
        join(device, nonce)
    } else {
        join_reply(device, nonce)
    }
}

// A device's uplink with this counter, or the closing of its window.
fn filling_at(device: u32, counter: u32, place: u32) -> Option<Call> {
    if place % 2 == 0 {
        uplink(device, counter, false, 1)
    } else {
        Some(closing(device, 1, counter))
    }
}

// The call at a place of the first series.
fn opening_at(place: u32) -> Option<Call> {
    match place {
        0 | 1 => Some(joining_at(DEVICE, 1, place)),
        2..=9 => uplink(DEVICE, place - 2, true, 1),
        10..=13 => Some(join(DEVICE, (place - 8) as u16)),
        14..=21 => Some(closing(DEVICE, 1, place - 14)),
        22..=25 => Some(join_reply(DEVICE, (place - 20) as u16)),
        _ => None,
    }
}

impl Series {
    // The call at a place.
    fn call_at(self, place: u32) -> Option<Call> {
        match self {
            Series::Opening => opening_at(place),
            Series::Filling(device) if place < 2 => Some(joining_at(device, 1, place)),
            Series::Filling(device) => filling_at(device, place / 2 - 1, place),
            Series::Late(device) => Some(closing(device, 1, 0)),
            Series::Joining => Some(joining_at(of_one_shard(place / 2), 1, place)),
            Series::Hearing => uplink(of_one_shard(place / 8), place % 8, false, 1),
            Series::Closing => Some(closing_at((WINDOWS - 1).saturating_sub(place))),
        }
    }
}

// Whether a reply says that the call did what it is for.
fn is_done(call: &Call, reply: &Reply) -> bool {
    match reply {
        Reply::Ask { .. } => matches!(call, Call::Join { .. }),
        Reply::Accepted { .. } => matches!(call, Call::JoinReply { .. }),
        Reply::Opened { .. } => matches!(call, Call::Uplink { .. }),
        Reply::Closed { .. } => matches!(call, Call::Close { .. }),
        _ => false,
    }
}

// Makes the call at a place. Whether it did what it is for.
fn does<C: Caller>(caller: &mut C, series: Series, place: u32) -> Option<bool> {
    let call = series.call_at(place)?;
    let reply = reply_to(caller, call)?;
    Some(is_done(&call, &reply))
}

/// Makes the calls of these places. How many did what they are for.
pub fn done_of<C: Caller>(caller: &mut C, series: Series, first: u32, end: u32) -> u32 {
    let mut done = 0u32;
    for place in first..end {
        if does(caller, series, place) == Some(true) {
            done = done.wrapping_add(1);
        }
    }
    done
}
