//! Windows that are closed, and tickets that are answered, where no memory is left.

use ns_calls::{Call, Outcome, Reply, shard_of_call};
use ns_device::calls::ticket;
use ns_device::traffic::{answer, join, join_reply, keys, roster, uplink};
use ns_shard::Shard;
use ns_types::{BLOCKS, DevAddr, DevEui, DevNonce, WindowName, take_all};
use std::alloc::Global;
use std::sync::Arc;

const DEVICE: u32 = 13;

const EUI: DevEui = DevEui(13);

// A counter, and the number of its acknowledgement: each other uplink is confirmed.
const WINDOWS: [(u32, Option<u32>); 8] = [
    (0, None),
    (1, Some(0)),
    (2, None),
    (3, Some(1)),
    (4, None),
    (5, Some(2)),
    (6, None),
    (7, Some(3)),
];

// A nonce, whether its join succeeds at the join server, and the reply to that.
const TICKETS: [(u16, bool, Reply); 4] = [
    (3, false, Reply::JoinRefused),
    (
        5,
        true,
        Reply::Accepted {
            eui: EUI,
            session: 2,
            addr: DevAddr(0x49a0_000d),
        },
    ),
    (
        4,
        true,
        Reply::JoinStale {
            greatest: DevNonce(5),
        },
    ),
    (2, false, Reply::JoinRefused),
];

// The reply to a call of the shard. None where memory was refused.
fn reply(shard: &mut Shard, call: Call) -> Option<Reply> {
    if shard_of_call(&call) != shard.index() {
        return None;
    }
    Some(shard.apply(call).ok()?.reply)
}

// The window of a counter in the device's first session.
fn window(fcnt: u32) -> WindowName {
    WindowName {
        eui: EUI,
        session: 1,
        fcnt,
        round: 1,
    }
}

// Opens the eight windows and then the four tickets of a device that has joined. None where one is not opened.
fn open(shard: &mut Shard) -> Option<()> {
    for (fcnt, ack) in WINDOWS {
        let window = window(fcnt);
        let opened = reply(shard, uplink(DEVICE, fcnt, ack.is_some(), 1)?)?;
        (opened == Reply::Opened { window }).then_some(())?;
    }
    for nonce in 2..6u16 {
        let ticket = ticket(DEVICE, u32::from(nonce));
        let asked = reply(shard, join(DEVICE, nonce))?;
        (asked == Reply::Ask { ticket }).then_some(())?;
    }
    Some(())
}

// A shard of one device with eight windows and four tickets open.
fn opened(alloc: Global) -> Option<Shard> {
    let roster = Arc::new(alloc, roster(alloc, 14).ok()?).ok()?;
    let mut shard = Shard::new(alloc, roster, 13).ok()?;
    reply(&mut shard, join(DEVICE, 1))?;
    reply(&mut shard, join_reply(DEVICE, 1))?;
    open(&mut shard)?;
    Some(shard)
}

// Whether the window of a counter is closed with one entry: its uplink goes out, and its acknowledgement where it has a number.
fn is_closed(shard: &mut Shard, fcnt: u32, ack: Option<u32>) -> bool {
    let (window, made) = (window(fcnt), shard.made());
    let Some(closed) = shard.close(&window) else {
        return false;
    };
    let is_its_uplink = match &closed.uplink {
        Some(uplink) => uplink.window == window,
        None => false,
    };
    closed.reply == Reply::Closed { window, ack }
        && is_its_uplink
        && closed.downlink.is_some() == ack.is_some()
        && shard.made() == made.wrapping_add(1)
}

// Whether the ticket of a nonce is answered with this reply and one entry: a Join-Accept goes out where it is accepted.
fn is_answered(shard: &mut Shard, nonce: u16, is_success: bool, reply: Reply) -> bool {
    let outcome = if is_success {
        Outcome::Success(answer(keys().nwk, None))
    } else {
        Outcome::Failed
    };
    let made = shard.made();
    let Some(ended) = shard.join_reply(&ticket(DEVICE, u32::from(nonce)), outcome) else {
        return false;
    };
    let is_accepted = matches!(reply, Reply::Accepted { .. });
    ended.reply == reply
        && ended.uplink.is_none()
        && ended.downlink.is_some() == is_accepted
        && shard.made() == made.wrapping_add(1)
}

// Whether all windows are closed and all tickets answered, each once: then none is open, and nothing changes.
fn are_ended(shard: &mut Shard) -> bool {
    for (fcnt, ack) in WINDOWS {
        if !is_closed(shard, fcnt, ack) {
            return false;
        }
    }
    for (nonce, is_success, reply) in TICKETS {
        if !is_answered(shard, nonce, is_success, reply) {
            return false;
        }
    }
    let made = shard.made();
    shard.close(&window(0)).is_none()
        && shard
            .join_reply(&ticket(DEVICE, 2), Outcome::Failed)
            .is_none()
        && shard.made() == made
        && shard.oldest().is_none()
}

// Closes a closed window until memory is refused. Whether each answer before made one entry, and the refused call none.
fn is_refused_at_last(shard: &mut Shard) -> bool {
    for _ in 0..1_000_000u32 {
        let (made, count) = (shard.made(), shard.entries().len());
        let now = reply(shard, Call::Close { window: window(0) });
        if now.is_none() {
            return shard.made() == made && shard.entries().len() == count;
        }
        if now != Some(Reply::NoWindow) || shard.made() != made.wrapping_add(1) {
            return false;
        }
    }
    false
}

// Whether all is ended with no memory left, and a closing too many is then refused.
fn are_ended_without(alloc: Global) -> Option<bool> {
    let mut held: Vec<Vec<u8>> = Vec::with_capacity(alloc, BLOCKS).ok()?;
    let mut shard = opened(alloc)?;
    take_all(alloc, &mut held).ok()?;
    Some(are_ended(&mut shard) && is_refused_at_last(&mut shard) && !held.is_empty())
}

/// With eight windows and four tickets of one device open and all memory gone, each is closed or answered. A closing of a closed window
/// needs memory for its entry in the end.
#[test]
fn endings_take_no_memory(rt: HostRuntime) {
    assert!(rt; are_ended_without(rt.alloc()) == Some(true));
}
