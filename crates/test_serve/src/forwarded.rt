//! Servers over loopback that hear packet forwarders: a join and a confirmed uplink, and a server that hears own datagrams too.

use crate::trial::{Asked, Life, Sockets, Told, Trial, USUAL, tried};
use ns_device::logged::Kept;
use ns_device::parties::Side::Near;
use ns_device::parties::Step::{Byte, Join, Nap, Pull, PushJoin, PushUplink, Receive, Uplink};
use ns_device::parties::Want;
use std::test::*;

// A device joins and sends a confirmed uplink. Its gateway's forwarder sends by one socket, and asks for downlinks by another.
static FORWARDED: Trial = Trial {
    asked: Asked {
        port: 17031,
        sockets: Sockets::Forwarders,
        ..USUAL
    },
    kept: Kept::None,
    stands_ms: 0,
    lives: &[Life {
        folder: None,
        stop_after: Some(2),
    }],
    joins: 1,
    steps: &[Pull, PushJoin, PushUplink(179)],
    told: Told {
        ended: Ok(4),
        output: Want::Is(&[
            "forwarders 127.0.0.1:17031\n",
            "up 000000000000000d 1 0 1 plain - 74657374 1 00000000000000a1\n",
            "settled 4\n",
        ]),
        log: Want::Is(&[]),
    },
};

/// A gateway that knows nothing of the server: its messages are acknowledged, and its downlinks go to where it asked for them, with the
/// power of the options.
#[test]
fn forwarder_over_loopback(rt: HostRuntime) {
    tried(&rt, &rt, &FORWARDED);
}

// A device joins by a gateway of the server's own datagrams, and sends a confirmed uplink. Then a forwarder asks for downlinks: its worker
// waits 100 ms from then on. After some 30 ms of them comes one byte: the closer, which looks each 10 ms, leaves the window to the end,
// since a worker still hears.
static BOTH_HEARD: Trial = Trial {
    asked: Asked {
        port: 17033,
        sockets: Sockets::Both,
        window_ms: 500,
        ..USUAL
    },
    kept: Kept::Of("ns_serve_state::counted"),
    stands_ms: 0,
    lives: &[Life {
        folder: None,
        stop_after: Some(3),
    }],
    joins: 1,
    steps: &[
        Join(0xa2),
        Uplink(Near, 0, true, 0xa2),
        Pull,
        Nap(3),
        Byte,
        Receive(Near, 40),
    ],
    told: Told {
        ended: Ok(4),
        output: Want::Is(&[
            "listening 127.0.0.1:17033\n",
            "forwarders 127.0.0.1:17035\n",
            "up 000000000000000d 1 0 1 plain - 74657374 1 00000000000000a2\n",
            "settled 4\n",
        ]),
        log: Want::Has(&[" accepted 1 ", " closed 1 "]),
    },
};

/// A server hears a forwarder beside own datagrams, closes at its end the window that is open then, and counts that.
#[test]
fn both_sockets_are_heard(rt: HostRuntime) {
    tried(&rt, &rt, &BOTH_HEARD);
}
