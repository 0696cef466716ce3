//! The start over memory, on the steps of a worked run.

use crate::folder::text_of;
use crate::life::resumed;
use crate::rows::holds;
use crate::worked::{TORN, TORN_UP, roster_of};
use ns_device::worked::{CLOSE, CONFIRMED, JOIN, KEPT_ANSWER, ROSTER, UP};
use ns_resume::RecordFault::{NoFit, NoStep, UpDiffers, UpLonger};
use ns_resume::{RecordFault, Resumed};
use ns_types::{DevEui, WindowName};
use std::alloc::Global;

// The roster of the run with one more device before its own.
const ADDED: &str =
    "{\"version\":1,\"net_id\":\"000024\",\"rx1_offset\":0,\"rx_delay\":1,\"devices\":[{\"dev_eui\":\"000000000000000e\",\"join_eui\":\"0102030401020304\",\"slot\":5},{\"dev_eui\":\"000000000000000d\",\"join_eui\":\"0102030401020304\",\"slot\":1998321}]}";

// One with another device in its place.
const OTHER: &str =
    "{\"version\":1,\"net_id\":\"000024\",\"rx1_offset\":0,\"rx_delay\":1,\"devices\":[{\"dev_eui\":\"000000000000000e\",\"join_eui\":\"0102030401020304\",\"slot\":5}]}";

// A record of a join and an uplink, and the same with the uplink once more.
const CLOSED: &[&str] = &[JOIN, KEPT_ANSWER, CONFIRMED, CLOSE];

const AGAIN: &[&str] = &[JOIN, KEPT_ANSWER, CONFIRMED, CLOSE, CONFIRMED];

// Its `up` line and a torn one.
const UP_AND_TORN: &str = "up 000000000000000d 1 2 1 plain - 74657374 1 00000000000000a1\nu";

// How many bytes of torn lines there are, and of torn `up` lines; 1 where just the `up` line is missing; how many tickets are open; 1
// where just the window is open that the uplink opened again; how many entries shards 13 and 14 have made.
type Told = [u64; 7];

// A roster, lines beside `up` lines, read in pieces of so many bytes, and what a start finds in them, or its fault.
type Row = (
    &'static str,
    &'static [&'static str],
    &'static str,
    usize,
    Result<Told, RecordFault>,
);

// A record is run.
const RUN: &[Row] = &[
    (ROSTER, AGAIN, UP, 1, Ok([0, 0, 0, 0, 1, 5, 0])),
    (ROSTER, AGAIN, UP, 7, Ok([0, 0, 0, 0, 1, 5, 0])),
    (ROSTER, AGAIN, UP, 1_000_000, Ok([0, 0, 0, 0, 1, 5, 0])),
    // A torn line and an open ticket are told.
    (
        ROSTER,
        &[JOIN, KEPT_ANSWER, CONFIRMED, CLOSE, TORN],
        UP,
        7,
        Ok([40, 0, 0, 0, 0, 4, 0]),
    ),
    (ROSTER, &[JOIN], "", 7, Ok([0, 0, 0, 1, 0, 1, 0])),
    // Missing `up` lines are given.
    (ROSTER, CLOSED, "", 7, Ok([0, 0, 1, 0, 0, 4, 0])),
    (ROSTER, CLOSED, TORN_UP, 7, Ok([0, 10, 1, 0, 0, 4, 0])),
    // A device may be added.
    (ADDED, AGAIN, UP, 1_000, Ok([0, 0, 0, 0, 1, 5, 0])),
];

// A record is refused.
const REFUSED: &[Row] = &[
    // It does not fit the roster, or the lines before.
    (OTHER, CLOSED, UP, 1_000, Err(NoFit(1))),
    (
        ROSTER,
        &[JOIN, KEPT_ANSWER, CONFIRMED, CLOSE, CLOSE],
        UP,
        1_000,
        Err(NoFit(5)),
    ),
    (
        ROSTER,
        &[JOIN, KEPT_ANSWER, "heard\n", CONFIRMED, CLOSE],
        UP,
        1_000,
        Err(NoStep(3)),
    ),
    (
        ROSTER,
        &[JOIN, KEPT_ANSWER, "heard 00\n"],
        UP,
        1_000,
        Err(NoFit(3)),
    ),
    (ROSTER, &[CONFIRMED, CLOSE], UP, 1_000, Err(NoFit(1))),
    // The `up` lines are not of it.
    (ROSTER, CLOSED, "up 0\n", 1_000, Err(UpDiffers(1))),
    (ROSTER, &[JOIN, KEPT_ANSWER], UP, 1_000, Err(UpLonger(0))),
    (ROSTER, CLOSED, UP_AND_TORN, 1_000, Err(UpLonger(1))),
];

// How many entries a shard has made.
fn made(resumed: &Resumed, shard: usize) -> u64 {
    match resumed.shards.as_slice().get(shard) {
        Some(shard) => shard.made(),
        None => u64::MAX,
    }
}

// Whether just the window is open that the uplink opened again.
fn is_open_again(windows: &[WindowName]) -> bool {
    let window = WindowName {
        eui: DevEui(13),
        session: 1,
        fcnt: 2,
        round: 2,
    };
    windows == [window].as_slice()
}

// 0 where there is nothing, 1 where there is what should be, and 2 otherwise.
fn number(is_empty: bool, is_right: bool) -> u64 {
    if is_empty {
        0
    } else if is_right {
        1
    } else {
        2
    }
}

fn told_of(resumed: &Resumed) -> Told {
    let (missing, windows) = (resumed.missing.as_slice(), resumed.windows.as_slice());
    [
        resumed.torn as u64,
        resumed.up_torn as u64,
        number(missing.is_empty(), missing == UP.as_bytes()),
        resumed.tickets.len() as u64,
        number(windows.is_empty(), is_open_again(windows)),
        made(resumed, 13),
        made(resumed, 14),
    ]
}

// What a start finds in these lines.
fn told(alloc: Global, row: &Row) -> Result<Told, RecordFault> {
    let (roster, lines, ups, piece, _) = *row;
    let steps = text_of(alloc, lines)?;
    let roster = roster_of(alloc, roster)?;
    let resumed = resumed(alloc, &roster, piece, steps.as_slice(), ups.as_bytes())?;
    Ok(told_of(&resumed))
}

#[test]
fn records_are_run(rt: HostRuntime) {
    let mut number = 1;
    for row in RUN {
        number = holds(&rt, told(rt.alloc(), row) == row.4, number);
    }
}

#[test]
fn records_are_refused(rt: HostRuntime) {
    let mut number = 1;
    for row in REFUSED {
        number = holds(&rt, told(rt.alloc(), row) == row.4, number);
    }
}
