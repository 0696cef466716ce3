//! Servers over loopback: a join and an uplink, the longest datagram and line, a gateway that moves, windows drained at the end, events and
//! JSON objects, windows closed one after the other, two join workers, and an output that fails.

use crate::trial::{Asked, Life, Told, Trial, USUAL, tried};
use ns_device::logged::Kept;
use ns_device::parties::Side::{Far, Near};
use ns_device::parties::Step::{Ask, Byte, Join, Later, Longest, Nap, Receive, Uplink, Within};
use ns_device::parties::{ROSTER_B, Want};
use ns_serve::ServeFault;
use std::test::*;

// A device behind two gateways joins and sends one uplink; then comes one byte.
static ONE_DEVICE: Trial = Trial {
    asked: Asked {
        window_ms: 2000,
        closing: true,
        ..USUAL
    },
    kept: Kept::None,
    stands_ms: 0,
    lives: &[Life {
        folder: None,
        stop_after: Some(4),
    }],
    joins: 1,
    steps: &[Join(0xa1), Uplink(Near, 0, false, 0xa1), Later(0xa2), Byte],
    told: Told {
        ended: Ok(5),
        output: Want::Is(&[
            "listening 127.0.0.1:17001\n",
            "up 000000000000000d 1 0 1 plain - 74657374 2 00000000000000a1,00000000000000a2\n",
            "settled 5\n",
            "{\"devices\":[{\"dev_eui\":\"000000000000000d\",\"join_eui\":\"0102030401020304\",\"last_nonce\":1,\"slot\":1998321}],\"net_id\":\"000024\",\"rx1_offset\":0,\"rx_delay\":1,\"version\":2}\n",
        ]),
        log: Want::Is(&[]),
    },
};

/// A join is answered, an uplink that two gateways hear goes out with two copies, all entries are counted, and the closing roster has
/// the nonce of the join.
#[test]
fn one_device_over_loopback(rt: HostRuntime) {
    tried(&rt, &rt, &ONE_DEVICE);
}

// Half of 242 bytes 5a.
const HALF: &str =
    "5a5a5a5a5a5a5a5a5a5a5a5a5a5a5a5a5a5a5a5a5a5a5a5a5a5a5a5a5a5a5a5a5a5a5a5a5a5a5a5a5a5a5a5a5a5a5a5a5a5a5a5a5a5a5a5a5a5a5a5a5a5a5a5a5a5a5a5a5a5a5a5a5a5a5a5a5a5a5a5a5a5a5a5a5a5a5a5a5a5a5a5a5a5a5a5a5a5a5a5a5a5a5a5a5a5a5a5a5a5a5a5a5a5a5a5a5a5a5a5a5a";

// A device joins, and sixteen gateways hear an uplink with the longest payload; then comes one byte.
static LONGEST: Trial = Trial {
    asked: Asked {
        port: 17011,
        ..USUAL
    },
    kept: Kept::None,
    stands_ms: 0,
    lives: &[Life {
        folder: None,
        stop_after: Some(18),
    }],
    joins: 1,
    steps: &[Join(0xa0), Longest, Byte],
    told: Told {
        ended: Ok(19),
        output: Want::Is(&[
            "listening 127.0.0.1:17011\n",
            "up 000000000000000d 1 65535 223 plain - ",
            HALF,
            HALF,
            " 16 00000000000000a0,00000000000000a1,00000000000000a2,00000000000000a3,00000000000000a4,00000000000000a5,00000000000000a6,00000000000000a7,00000000000000a8,00000000000000a9,00000000000000aa,00000000000000ab,00000000000000ac,00000000000000ad,00000000000000ae,00000000000000af\n",
            "settled 19\n",
        ]),
        log: Want::Is(&[]),
    },
};

/// A datagram of 283 bytes is read whole, and its line of 800 bytes is written whole.
#[test]
fn longest_datagram_and_line(rt: HostRuntime) {
    tried(&rt, &rt, &LONGEST);
}

// A device joins by one socket of a gateway, and sends a confirmed uplink by another.
static MOVED: Trial = Trial {
    asked: Asked {
        port: 17013,
        ..USUAL
    },
    kept: Kept::None,
    stands_ms: 0,
    lives: &[Life {
        folder: None,
        stop_after: Some(2),
    }],
    joins: 1,
    steps: &[Join(0xa1), Uplink(Far, 0, true, 0xa1), Receive(Far, 40)],
    told: Told {
        ended: Ok(4),
        output: Want::Is(&[
            "listening 127.0.0.1:17013\n",
            "up 000000000000000d 1 0 1 plain - 74657374 1 00000000000000a1\n",
            "settled 4\n",
        ]),
        log: Want::Is(&[]),
    },
};

/// A window that is open at the end is closed: its acknowledgement goes to where its gateway was heard last, and its line is written.
#[test]
fn last_window_is_acknowledged(rt: HostRuntime) {
    tried(&rt, &rt, &MOVED);
}

// The same, with events and JSON objects.
static OBJECTS: Trial = Trial {
    asked: Asked {
        port: 17019,
        json: true,
        ..USUAL
    },
    kept: Kept::None,
    stands_ms: 0,
    lives: &[Life {
        folder: None,
        stop_after: Some(2),
    }],
    joins: 1,
    steps: &[Join(0xa1), Uplink(Far, 0, true, 0xa1), Receive(Far, 40)],
    told: Told {
        ended: Ok(4),
        output: Want::Has(&[
            "\n{\"event\":\"ack\",\"time\":\"",
            "\",\"devEui\":\"000000000000000d\",\"devAddr\":\"49be7df1\",\"session\":1,\"fCnt\":0,\"gatewayId\":\"00000000000000a1\"}\n",
            "\",\"devEui\":\"000000000000000d\",\"devAddr\":\"49be7df1\",\"session\":1,\"fCnt\":0,\"fPort\":1,\"confirmed\":true,",
        ]),
        log: Want::Is(&[]),
    },
};

/// Where they are asked for, an acknowledgement is told with the device's address, and the uplink as a JSON object.
#[test]
fn events_and_objects_are_written(rt: HostRuntime) {
    tried(&rt, &rt, &OBJECTS);
}

// A device sends uplink 0, and some 300 ms later the confirmed uplink 1; once that is acknowledged comes one byte.
static TWO_UPLINKS: Trial = Trial {
    asked: Asked {
        port: 17037,
        window_ms: 600,
        ..USUAL
    },
    kept: Kept::None,
    stands_ms: 0,
    lives: &[Life {
        folder: None,
        stop_after: Some(4),
    }],
    joins: 1,
    steps: &[
        Join(0xa1),
        Uplink(Near, 0, false, 0xa1),
        Nap(30),
        Uplink(Near, 1, true, 0xa1),
        Nap(30),
        Receive(Near, 40),
        Byte,
    ],
    told: Told {
        ended: Ok(6),
        output: Want::Has(&[]),
        log: Want::Is(&[]),
    },
};

/// A window that is not due when the one before it is closed is closed when it is due, long before the server ends.
#[test]
fn window_behind_another_is_closed(rt: HostRuntime) {
    tried(&rt, &rt, &TWO_UPLINKS);
}

// Two devices ask to join at a time.
static TWO_JOINS: Trial = Trial {
    asked: Asked {
        port: 17015,
        roster: ROSTER_B,
        join_workers: 2,
        window_ms: 500,
        ..USUAL
    },
    kept: Kept::None,
    stands_ms: 0,
    lives: &[Life {
        folder: None,
        stop_after: Some(3),
    }],
    joins: 2,
    steps: &[
        Ask(Near, 13, 0xa1),
        Ask(Far, 14, 0xa2),
        Receive(Near, 45),
        Receive(Far, 45),
        Byte,
    ],
    told: Told {
        ended: Ok(4),
        output: Want::Has(&[]),
        log: Want::Is(&[]),
    },
};

/// Two join workers ask the join server at the same time.
#[test]
fn two_are_asked_about_at_a_time(rt: HostRuntime) {
    tried(&rt, &rt, &TWO_JOINS);
}

// A device joins within 1,000 ms, which a longer window than that of 100 ms does not allow, and sends an uplink.
static FAILING: Trial = Trial {
    asked: Asked {
        port: 17017,
        window_ms: 100,
        texts: 1,
        ..USUAL
    },
    kept: Kept::None,
    stands_ms: 0,
    lives: &[Life {
        folder: None,
        stop_after: None,
    }],
    joins: 1,
    steps: &[Join(0xa1), Within(1000), Uplink(Near, 0, false, 0xa1)],
    told: Told {
        ended: Err(ServeFault::Io),
        output: Want::Has(&[]),
        log: Want::Is(&[]),
    },
};

/// A server that is not told when to stop ends with `Io` where its output fails.
#[test]
fn failed_output_ends_the_server(rt: HostRuntime) {
    tried(&rt, &rt, &FAILING);
}
