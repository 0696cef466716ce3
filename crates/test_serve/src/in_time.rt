//! When the lines of a record are written on which nothing that leaves rests.

use crate::lives::SHORT;
use crate::trial::{Asked, Life, Told, Trial, tried};
use ns_device::logged::Kept;
use ns_device::parties::Side::Near;
use ns_device::parties::Step::{Byte, Copy, Ended, First, Join, Nap, Uplink};
use ns_device::parties::{Want, emptied};
use std::alloc::Alloc;
use std::fs;
use std::rt::Files;
use std::test::*;

// The folder of the record, and what a kill would have left of it 500 ms after an uplink.
const FOLDER: &str = "test_serve_in_time";

const KILLED: &str = "test_serve_in_time_killed";

const FOLDERS: &[&str] = &[FOLDER, KILLED];

const KEPT: &[(&str, &str)] = &[
    (
        "test_serve_in_time/steps",
        "test_serve_in_time_killed/steps",
    ),
    ("test_serve_in_time/up", "test_serve_in_time_killed/up"),
];

// The `up` line of the uplink.
const UP_0: &str = "up 000000000000000d 1 0 1 plain - 74657374 1 00000000000000a1\n";

// A device joins, which writes the record, and sends an uplink that is not confirmed. Its window stays open for 10 s, so nothing leaves
// the server. The second life is of what a kill would have left then.
static IN_TIME: Trial = Trial {
    asked: Asked {
        port: 17043,
        window_ms: 10_000,
        ..SHORT
    },
    kept: Kept::None,
    stands_ms: 0,
    lives: &[
        Life {
            folder: Some(FOLDER),
            stop_after: Some(3),
        },
        Life {
            folder: Some(KILLED),
            stop_after: Some(1),
        },
    ],
    joins: 1,
    steps: &[
        Join(0xa1),
        Uplink(Near, 0, false, 0xa1),
        Nap(50),
        Copy(KEPT),
        Byte,
        Ended(1),
        First,
    ],
    told: Told {
        ended: Ok(4),
        output: Want::Is(&[
            "listening 127.0.0.1:17043\n",
            UP_0,
            "settled 4\n",
            "listening 127.0.0.1:17043\n",
            UP_0,
            "settled 4\n",
        ]),
        log: Want::Is(&[]),
    },
};

// Makes the folders.
fn make_folders<H: Files + Alloc>(host: &H) -> Option<()> {
    for folder in FOLDERS {
        emptied(host, folder)?;
    }
    Some(())
}

// Takes the folders away.
fn remove_folders<H: Files + Alloc>(host: &H) -> Option<()> {
    for folder in FOLDERS {
        fs::remove_dir_all(host, folder).ok()?;
    }
    Some(())
}

/// What a gateway heard stands in the record soon, although nothing leaves that rests on it.
#[test]
fn lines_are_written_in_time(rt: HostRuntime) {
    assert!(rt; make_folders(&rt).is_some());
    assert!(rt; tried(&rt, &rt, &IN_TIME) >= 1);
    assert!(rt; remove_folders(&rt).is_some());
}
