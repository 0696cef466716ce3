//! The step lines of calls, by the texts that FORMATS gives them.

use crate::rows::holds;
use ns_calls::{Call, JoinAccept, JoinAns, Outcome, Reply};
use ns_record::{matters, step_line};
use ns_types::{DevEui, GatewayId, Heard, Key, Ticket, WindowName};

const HEARD: Heard = Heard {
    gateway: GatewayId(0x0102_0304_0506_0708),
    moment: 0x1112_1314_1516_1718,
    freq: 868_100_000,
    dr: 5,
    rssi: -1000,
    snr: 75,
};

const TICKET: Ticket = Ticket([
    0, 1, 2, 3, 4, 5, 6, 7, 8, 9, 10, 11, 12, 13, 14, 15, 16, 17, 18, 4, 3, 2, 1,
]);

const JOIN: JoinAns = JoinAns {
    accept: JoinAccept::Plain([0x20; 17]),
    nwk: Key([0x11; 16]),
    app: Some(Key([0x2f; 16])),
};

// A window in its first round.
const WINDOW: WindowName = WindowName {
    eui: DevEui(0xab),
    session: 1,
    fcnt: 4_294_967_295,
    round: 1,
};

// Calls, each with its line: a join has that of the datagram that brought it, an answer that of a JoinAns, and a closing names the round
// where it is not the first.
const LINES: [(Call, &str); 5] = [
    (
        Call::Join {
            ticket: TICKET,
            heard: HEARD,
        },
        "heard 01010102030405060708111213141516171833be27a005fc18004b17000102030405060708090a0b0c0d0e0f10111204030201",
    ),
    (
        Call::JoinReply {
            ticket: TICKET,
            outcome: Outcome::Success(JOIN),
        },
        "answer 000102030405060708090a0b0c0d0e0f10111204030201 {\"AppSKey\":{\"AESKey\":\"2f2f2f2f2f2f2f2f2f2f2f2f2f2f2f2f\"},\"MessageType\":\"JoinAns\",\"NwkSKey\":{\"AESKey\":\"11111111111111111111111111111111\"},\"PHYPayload\":\"2020202020202020202020202020202020\",\"Result\":{\"ResultCode\":\"Success\"},\"TransactionID\":16909060}",
    ),
    (
        Call::JoinReply {
            ticket: TICKET,
            outcome: Outcome::Failed,
        },
        "lost 000102030405060708090a0b0c0d0e0f10111204030201",
    ),
    (
        Call::Close { window: WINDOW },
        "close 00000000000000ab 1 4294967295",
    ),
    (
        Call::Close {
            window: WindowName {
                round: 12,
                ..WINDOW
            },
        },
        "close 00000000000000ab 1 4294967295:12",
    ),
];

#[test]
fn calls_have_their_lines(rt: HostRuntime) {
    let mut number = 1;
    for (call, line) in LINES {
        number = holds(&rt, step_line(&call).as_str() == line, number);
    }
}

// Replies, and whether the calls to which they are given stay in a record.
const MATTER: [(Reply, bool); 7] = [
    (Reply::Opened { window: WINDOW }, true),
    (Reply::Again { window: WINDOW }, true),
    (
        Reply::Closed {
            window: WINDOW,
            ack: None,
        },
        true,
    ),
    (Reply::JoinRefused, true),
    (Reply::Crowded { window: WINDOW }, false),
    (Reply::NoWindow, false),
    (Reply::JoinBusy, false),
];

#[test]
fn replies_that_change_something_matter(rt: HostRuntime) {
    let mut number = 1;
    for (reply, is_needed) in MATTER {
        number = holds(&rt, matters(&reply) == is_needed, number);
    }
}
