//! What a server logs: the counts once a minute and at the end, and where memory was wanting before the first window.

use crate::trial::{Asked, Life, Ran, Told, Trial, USUAL, run_logged, tried};
use ns_device::logged::Kept;
use ns_device::parties::Side::Near;
use ns_device::parties::Step::{Ask, First, Frame, Stand};
use ns_device::parties::{Ended, Want, contains};
use ns_serve::ServeFault;
use ns_types::BLOCKS;
use std::net::{Net, TcpListener, TcpStream};
use std::sync::Wait;
use std::test::*;
use std::thread::Threads;
use std::time::Clock;

// A frame of an address that no device has.
const UNKNOWN: [u8; 16] = [
    0x40, 0xde, 0xc0, 0xad, 0xde, 0, 0, 0, 0, 0, 0, 0, 0, 0, 0, 0,
];

// A frame that says that it has more options than it has room for.
const WITHOUT_OPTIONS: [u8; 12] = [0x40, 0xf1, 0x7d, 0xbe, 0x49, 0x0f, 2, 0, 0, 0, 0, 0];

// Two frames of an unknown address and a Join-Request of an unknown device come in the first minute, another frame in the second, and one
// byte in the third.
static TWO_MINUTES: Trial = Trial {
    asked: Asked {
        port: 17021,
        ..USUAL
    },
    kept: Kept::Of("ns_serve_state::counted"),
    stands_ms: 1_000_000,
    lives: &[Life {
        folder: None,
        stop_after: Some(5),
    }],
    joins: 0,
    steps: &[
        Frame(&UNKNOWN, 5),
        Ask(Near, 99, 0xa1),
        Frame(&UNKNOWN, 5),
        Stand(1_059_999),
        Stand(1_060_000),
        Frame(&UNKNOWN, 5),
        Stand(1_119_999),
        Stand(1_120_000),
        First,
    ],
    told: Told {
        ended: Ok(4),
        output: Want::Is(&["listening 127.0.0.1:17021\n", "settled 4\n"]),
        log: Want::Is(&[
            "[INFO  ns_serve_state::counted] datagrams: read 3 lost 0 dropped 0 late 0 failed receives 0 G1 0 G2 0 G3 0 G4 0 G5 0 G6 0 V1 0 V2 0 V3 0 V4 0 V5 0 V6 0\n",
            "[INFO  ns_serve_state::counted] replies: opened 0 copied 0 crowded 0 old 0 nosession 2 busy 0 ask 0 joincopied 0 joincrowded 0 nonceold 0 nodevice 1 joinbusy 0 accepted 0 joinrefused 0 joinstale 0 noticket 0 closed 0 nowindow 0 again 0 unanswered 0 unsent 0 stale tickets 0\n",
            "[INFO  ns_serve_state::counted] datagrams: read 4 lost 0 dropped 0 late 0 failed receives 0 G1 0 G2 0 G3 0 G4 0 G5 0 G6 0 V1 0 V2 0 V3 0 V4 0 V5 0 V6 0\n",
            "[INFO  ns_serve_state::counted] replies: opened 0 copied 0 crowded 0 old 0 nosession 3 busy 0 ask 0 joincopied 0 joincrowded 0 nonceold 0 nodevice 1 joinbusy 0 accepted 0 joinrefused 0 joinstale 0 noticket 0 closed 0 nowindow 0 again 0 unanswered 0 unsent 0 stale tickets 0\n",
            "[INFO  ns_serve_state::counted] datagrams: read 5 lost 0 dropped 0 late 0 failed receives 0 G1 1 G2 0 G3 0 G4 0 G5 0 G6 0 V1 0 V2 0 V3 0 V4 0 V5 0 V6 0\n",
            "[INFO  ns_serve_state::counted] replies: opened 0 copied 0 crowded 0 old 0 nosession 3 busy 0 ask 0 joincopied 0 joincrowded 0 nonceold 0 nodevice 1 joinbusy 0 accepted 0 joinrefused 0 joinstale 0 noticket 0 closed 0 nowindow 0 again 0 unanswered 0 unsent 0 stale tickets 0\n",
        ]),
    },
};

/// The counts are logged once a minute has passed, and then not before another has, and at the end, with their names.
#[test]
fn counts_are_logged_each_minute(rt: HostRuntime) {
    tried(&rt, &rt, &TWO_MINUTES);
}

// Datagrams that are refused as G1, G6, G1 and V4.
static FOUR_REFUSED: Trial = Trial {
    asked: Asked {
        port: 17023,
        ..USUAL
    },
    kept: Kept::Of("ns_serve_state::counted"),
    stands_ms: 0,
    lives: &[Life {
        folder: None,
        stop_after: Some(4),
    }],
    joins: 0,
    steps: &[First, Frame(&UNKNOWN, 8), First, Frame(&WITHOUT_OPTIONS, 5)],
    told: Told {
        ended: Ok(0),
        output: Want::Is(&["listening 127.0.0.1:17023\n", "settled 0\n"]),
        log: Want::Is(&[
            "[INFO  ns_serve_state::counted] datagrams: read 4 lost 0 dropped 0 late 0 failed receives 0 G1 2 G2 0 G3 0 G4 0 G5 0 G6 1 V1 0 V2 0 V3 0 V4 1 V5 0 V6 0\n",
            "[INFO  ns_serve_state::counted] replies: opened 0 copied 0 crowded 0 old 0 nosession 0 busy 0 ask 0 joincopied 0 joincrowded 0 nonceold 0 nodevice 0 joinbusy 0 accepted 0 joinrefused 0 joinstale 0 noticket 0 closed 0 nowindow 0 again 0 unanswered 0 unsent 0 stale tickets 0\n",
        ]),
    },
};

/// A refusal that a worker tells is counted under its number.
#[test]
fn refusals_are_counted(rt: HostRuntime) {
    tried(&rt, &rt, &FOUR_REFUSED);
}

// A server that has little memory, and serves no datagram. What it does rests on how many blocks that is (`served`).
static LITTLE: Trial = Trial {
    asked: USUAL,
    kept: Kept::Errors,
    stands_ms: 0,
    lives: &[Life {
        folder: None,
        stop_after: Some(0),
    }],
    joins: 0,
    steps: &[],
    told: Told {
        ended: Ok(0),
        output: Want::Has(&[]),
        log: Want::Is(&[]),
    },
};

// What comes of that server with so many blocks of memory.
fn run_with<R>(rt: &R, host: &HostRuntime, blocks: usize) -> Option<Ran>
where
    R: Threads + Wait + Clock + Net<Listener = TcpListener, Stream = TcpStream> + Sync,
{
    let asked = Asked {
        port: 17025,
        blocks: Some(blocks),
        ..USUAL
    };
    run_logged(rt, host, &asked, &LITTLE, &Ended::new(0))
}

// Whether it served; None where it ended otherwise, or did not log an error exactly where it did not serve.
fn served(ran: &Ran) -> Option<bool> {
    let has_error = contains(ran.log.as_slice(), b"[ERROR ");
    match ran.outcome {
        Some(Ok(0)) if !has_error => Some(true),
        Some(Err(ServeFault::NoMemory)) if has_error => Some(false),
        _ => None,
    }
}

// With how many blocks of memory it serves first, with twice as many after each time; None where it ended otherwise before, or never did.
fn least_blocks<R>(rt: &R, host: &HostRuntime) -> Option<usize>
where
    R: Threads + Wait + Clock + Net<Listener = TcpListener, Stream = TcpStream> + Sync,
{
    let mut blocks = 0usize;
    for _ in 0..40 {
        let ran = run_with(rt, host, blocks)?;
        if served(&ran)? {
            return Some(blocks);
        }
        blocks = blocks.saturating_mul(2).max(1).min(BLOCKS);
    }
    None
}

/// Where memory is wanting before the first window, the server ends with `NoMemory`, and a line of level error was logged; with more and
/// more of it, it serves at last, and none was.
#[test]
fn want_of_memory_is_logged(rt: HostRuntime) {
    assert!(rt; least_blocks(&rt, &rt).unwrap_or(0) > 0);
}
