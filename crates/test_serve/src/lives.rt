//! Lives of a record: what a second server knows of the first, what a crash would have left, windows that it left open, and starts that are
//! refused.

ghost use Rattle.std.specs.Prelude.{IfOk};
ghost use Rattle.std.specs.Arc.{arc_value};
ghost use Rattle.ns_serve_shards.specs.Begun.{IsBegun};

use crate::trial::{Asked, Life, Told, Trial, USUAL, tried};
use ns_device::logged::Kept;
use ns_device::parties::Side::Near;
use ns_device::parties::Step::{
    Acknowledged, Again, Byte, Copy, Ended, Filled, First, Join, Uplink,
};
use ns_device::parties::{ROSTER_B, Want, emptied, has_lines, write_record};
use ns_device::worked::{CLOSE, CONFIRMED, JOIN, KEPT_ANSWER, ROSTER, UP, roster_of};
use ns_log::Discard;
use ns_record_files::RecordFiles;
use ns_resume::RecordFault;
use ns_roster::Roster;
use ns_serve::Begun;
use std::alloc::{Alloc, Global};
use std::fs;
use std::fs::File;
use std::rt::Files;
use std::sync::Arc;
use std::test::*;

// The folder of the record, and what a kill would have left of it after the first acknowledgement.
const FOLDER: &str = "test_serve_lives";

const KILLED: &str = "test_serve_killed";

// What a kill would have left of a record while a window was open.
const OPEN: &str = "test_serve_open";

const OPEN_UP: &str = "test_serve_open/up";

const FOLDERS: &[&str] = &[FOLDER, KILLED, OPEN];

// The files of the record, and those that keep what a kill would have left of them.
const KEPT: &[(&str, &str)] = &[
    ("test_serve_lives/steps", "test_serve_killed/steps"),
    ("test_serve_lives/up", "test_serve_killed/up"),
];

// A folder for starts that are refused.
const REFUSED: &str = "test_serve_refused";

// Steps of a record, and the same with a torn line behind them.
const STEPS: &[&str] = &[JOIN, KEPT_ANSWER, CONFIRMED, CLOSE];

const TORN_STEPS: &[&str] = &[JOIN, KEPT_ANSWER, CONFIRMED, CLOSE, "heard 0101"];

// Their `up` line with its end torn off.
const TORN_UP: &str = "up 000000000000000d 1 2 1 pl";

// The `up` lines of a first life, with uplinks 0 and 1.
const UP_0: &str = "up 000000000000000d 1 0 1 plain - 74657374 1 00000000000000a1\n";

const UP_1: &str = "up 000000000000000d 1 1 1 plain - 74657374 1 00000000000000a1\n";

// A roster without the device.
const WITHOUT: &str = r#"{"version":1,"net_id":"000024","rx1_offset":0,"rx_delay":1,"devices":[]}"#;

/// What the record in a folder leaves, whose steps are to outlive the machine or the program alone.
pub fn resumed<H: Files<File = File>>(
    host: &H,
    alloc: Global,
    roster: &Arc<Roster>,
    folder: &str,
    sync: bool,
) -> Result<Begun, RecordFault>
    ensures { IfOk result (IsBegun (arc_value roster.now)) }
{
    match RecordFiles::open(host, &Discard, alloc, folder, sync) {
        Ok(files) => Begun::resume(&Discard, alloc, roster, files),
        Err(_) => Err(RecordFault::Io),
    }
}

/// What a life begins with: the record in its folder, or nothing.
pub fn begun_of<H: Files<File = File>>(
    host: &H,
    alloc: Global,
    roster: &Arc<Roster>,
    folder: Option<&str>,
) -> Result<Begun, RecordFault>
    ensures { IfOk result (IsBegun (arc_value roster.now)) }
{
    if let Some(folder) = folder {
        return resumed(host, alloc, roster, folder, true);
    }
    match Begun::new(alloc, roster) {
        Ok(begun) => Ok(begun),
        Err(_) => Err(RecordFault::NoMemory),
    }
}

/// What is asked of a server of one device: windows stay open for 200 ms.
pub const SHORT: Asked = Asked {
    port: 17041,
    window_ms: 200,
    ..USUAL
};

// A device through four lives, one after the other: two of the record, one of what a kill would have left of it, and one of a record with
// an open window. Uplinks 0 and 1 are of the first life, and uplink 1 is sent again in the second; the third is what a kill would have left
// after the first acknowledgement, and there uplink 0 is sent again. In the fourth life it is waited for the `up` line of the open window.
static LIVES: Trial = Trial {
    asked: SHORT,
    kept: Kept::None,
    stands_ms: 0,
    lives: &[
        Life {
            folder: Some(FOLDER),
            stop_after: Some(3),
        },
        Life {
            folder: Some(FOLDER),
            stop_after: Some(3),
        },
        Life {
            folder: Some(KILLED),
            stop_after: Some(2),
        },
        Life {
            folder: Some(OPEN),
            stop_after: Some(1),
        },
    ],
    joins: 1,
    steps: &[
        Join(0xa1),
        Acknowledged(0, 0),
        Copy(KEPT),
        Uplink(Near, 1, false, 0xa1),
        Ended(1),
        Again(1),
        Acknowledged(2, 1),
        Byte,
        Ended(2),
        Acknowledged(0, 1),
        Byte,
        Ended(3),
        Filled(OPEN_UP),
        First,
    ],
    told: Told {
        ended: Ok(4),
        output: Want::Is(&[
            "listening 127.0.0.1:17041\n",
            UP_0,
            UP_1,
            "settled 6\n",
            "listening 127.0.0.1:17041\n",
            UP,
            "settled 9\n",
            "listening 127.0.0.1:17041\n",
            "settled 6\n",
            "listening 127.0.0.1:17041\n",
            UP,
            "settled 4\n",
        ]),
        log: Want::Is(&[]),
    },
};

// Makes the folders of the four lives. What a kill left while a window was open is the record without its last step.
fn make_folders<H: Files + Alloc>(host: &H, alloc: Global) -> Option<()> {
    for folder in FOLDERS {
        emptied(host, folder)?;
    }
    write_record(host, alloc, OPEN, &[JOIN, KEPT_ANSWER, CONFIRMED], &[])
}

// Whether the file of `up` lines of the record has those of both lives. The folders of the four lives are taken away.
fn leave_both<H: Files<File = File> + Alloc>(host: &H, alloc: Global) -> bool {
    let mut is_left = has_lines(host, alloc, FOLDER, "up", &[UP_0, UP_1, UP]);
    for folder in FOLDERS {
        is_left = fs::remove_dir_all(host, folder).is_ok() && is_left;
    }
    is_left
}

/// A session lives on in the second life: an uplink goes out once over both, and acknowledgements are numbered on. What a kill would have
/// left when the first acknowledgement was there has all that this rests on: the number is not used again. A window that a kill would have
/// left open is closed long before the next life ends.
#[test]
fn lives_are_one_run(rt: HostRuntime) {
    assert!(rt; make_folders(&rt, rt.alloc()).is_some());
    assert!(rt; tried(&rt, &rt, &LIVES) >= 3);
    assert!(rt; leave_both(&rt, rt.alloc()));
}

// A start with a record: its roster and files, why it is refused, if it is, and what it leaves of the files.
struct Start {
    roster: &'static str,
    before: [&'static [&'static str]; 2],
    why: Option<RecordFault>,
    behind: [&'static [&'static str]; 2],
}

static STARTS: [Start; 3] = [
    Start {
        roster: WITHOUT,
        before: [TORN_STEPS, &[TORN_UP]],
        why: Some(RecordFault::NoFit(1)),
        behind: [TORN_STEPS, &[TORN_UP]],
    },
    Start {
        roster: ROSTER,
        before: [TORN_STEPS, &["up 1"]],
        why: Some(RecordFault::UpDiffers(1)),
        behind: [TORN_STEPS, &["up 1"]],
    },
    Start {
        roster: ROSTER_B,
        before: [TORN_STEPS, &[TORN_UP]],
        why: None,
        behind: [STEPS, &[UP]],
    },
];

// Whether the files are these.
fn are_these<H: Files<File = File>>(host: &H, alloc: Global, files: &[&[&str]; 2]) -> bool {
    has_lines(host, alloc, REFUSED, "steps", files[0])
        && has_lines(host, alloc, REFUSED, "up", files[1])
}

// Whether a start comes to what it says.
fn starts_so<H: Files<File = File>>(host: &H, alloc: Global, start: &Start) -> Option<bool> {
    write_record(host, alloc, REFUSED, start.before[0], start.before[1])?;
    let roster = roster_of(alloc, start.roster)?;
    let is_so = resumed(host, alloc, &roster, REFUSED, false).err() == start.why;
    Some(is_so && are_these(host, alloc, &start.behind))
}

// Whether each start comes to what it says.
fn all_start_so<H: Files<File = File>>(host: &H, alloc: Global) -> bool {
    let mut is_right = true;
    for start in &STARTS {
        is_right = starts_so(host, alloc, start) == Some(true) && is_right;
    }
    is_right
}

// The same, with a folder that is there as long.
fn are_right<H: Files<File = File> + Alloc>(host: &H, alloc: Global) -> bool {
    emptied(host, REFUSED).is_some()
        && all_start_so(host, alloc)
        && fs::remove_dir_all(host, REFUSED).is_ok()
}

/// A start that is refused changes no byte of the files, and one that is not mends them.
#[test]
fn refused_starts_change_nothing(rt: HostRuntime) {
    assert!(rt; are_right(&rt, rt.alloc()));
}
