//! `replay` where reads or writes fail, or memory is refused.
//!
//! Memory is given back one block at a time, and several growths may pass with one: so they may be refused together.

ghost use Rattle.std.specs.Prelude.{◌<◌};

use crate::folder::text_of;
use ns_device::worked::{ANSWER, JOIN, JOIN_2, ROSTER, UNKNOWN, roster_of};
use ns_output::Output;
use ns_replay::{ReplayFault, replay};
use ns_roster::Roster;
use ns_types::{BLOCKS, Fuse, Stream, take_all};
use std::alloc::Global;
use std::sync::Arc;

// A join with its answer, two confirmed uplinks, their closings and a line that is refused; and what is written of them.
const STEPS: &[&str] = &[
    JOIN,
    ANSWER,
    "heard 010100000000000000a100000000000f424033be27a005fc4a004b1180f17dbe4900040001753e3bb0dab1720e\n",
    "heard 010100000000000000a100000000000f424033be27a005fc4a004b1180f17dbe4900050001912b5da114e7277a\n",
    "close 000000000000000d 1 5\n",
    "close 000000000000000d 1 4\n",
    "hello",
];

const LINES: &str = "\
ask 0004030201040302010d00000000000000010001000000
accepted 000000000000000d 1 49be7df1
down 00000000000000a1 6000000 868100000 5 20000102030405060708090a0b0c0d0e0f
opened 000000000000000d 1 4
opened 000000000000000d 1 5
closed 000000000000000d 1 5 0
up 000000000000000d 1 5 1 plain - 74657374 1 00000000000000a1
down 00000000000000a1 2000000 868100000 5 60f17dbe492000001c0217fb
closed 000000000000000d 1 4 1
up 000000000000000d 1 4 1 plain - 74657374 1 00000000000000a1
down 00000000000000a1 2000000 868100000 5 60f17dbe492001003272b76e
refused line
";

// Three Join-Requests, a closing behind which a carriage return stands, and a line that is refused.
const REQUESTS: &[&str] = &[
    JOIN,
    JOIN_2,
    UNKNOWN,
    "close 000000000000000d 1 2\r\n",
    "hello\n",
];

// What came of a run: how it ended, whether its reader failed, and its writer.
#[derive(Drop)]
struct Ran {
    outcome: Result<(), ReplayFault>,
    is_unread: bool,
    writer: Fuse,
}

// Runs step lines over streams that move so many bytes a call, and fail after so many reads or writes.
fn run(
    alloc: Global,
    roster: Arc<Roster>,
    input: Vec<u8>,
    read_most: usize,
    write_most: usize,
    reads: Option<u64>,
    writes: Option<u64>,
) -> Ran
    requires read { 0 < read_most }
    requires write { 0 < write_most }
{
    let mut reader = Fuse::new(alloc, input, read_most, reads, None);
    let mut writer = Fuse::new(alloc, Vec::new(alloc), write_most, None, writes);
    let outcome = replay(
        alloc,
        roster,
        Output::Lines,
        false,
        &mut reader,
        &mut writer,
    );
    Ran {
        outcome,
        is_unread: reader.failed(),
        writer,
    }
}

// Whether a run wrote all these lines. None where it ended otherwise than so or by a failure of a stream, with nothing written where a
// read failed, and a beginning of the lines where a write did.
fn is_whole(ran: &Ran, lines: &str) -> Option<bool> {
    let written = ran.writer.written();
    let is_whole = !ran.is_unread && !ran.writer.failed();
    let is_right = if is_whole {
        ran.outcome == Ok(()) && written == lines.as_bytes()
    } else {
        ran.outcome == Err(ReplayFault::Io)
            && lines.as_bytes().starts_with(written)
            && (written.is_empty() || !ran.is_unread)
    };
    if is_right { Some(is_whole) } else { None }
}

// Whether a run of these steps writes all these lines, as `is_whole` says.
fn ends(
    alloc: Global,
    roster: &Arc<Roster>,
    text: (&[&str], &str),
    read_most: usize,
    write_most: usize,
    reads: Option<u64>,
    writes: Option<u64>,
) -> Option<bool>
    requires read { 0 < read_most }
    requires write { 0 < write_most }
{
    let (steps, lines) = text;
    let input = text_of(alloc, steps).ok()?;
    let roster = roster.clone().ok()?;
    let ran = run(alloc, roster, input, read_most, write_most, reads, writes);
    is_whole(&ran, lines)
}

// Whether each read fails in turn, with nothing written, of which there are more than eight. None where a run ends otherwise.
fn reads_fail(alloc: Global) -> Option<bool> {
    let roster = roster_of(alloc, ROSTER)?;
    for reads in 0..20 {
        let is_whole = ends(alloc, &roster, (STEPS, LINES), 70, 200, Some(reads), None)?;
        if is_whole && reads <= 8 {
            return Some(false);
        }
    }
    Some(true)
}

#[test]
fn a_failed_read_writes_nothing(rt: HostRuntime) {
    assert!(rt; reads_fail(rt.alloc()) == Some(true));
}

// How many runs of these steps write all these lines, where the write after so many fails. None where one of them ends otherwise than so
// or by that failure.
fn whole_runs(alloc: Global, text: (&[&str], &str), most: usize) -> Option<u32>
    requires { 0 < most }
{
    let roster = roster_of(alloc, ROSTER)?;
    let mut count = 0u32;
    for writes in 0..40 {
        let is_whole = ends(alloc, &roster, text, 100_000, most, None, Some(writes))?;
        count = count.wrapping_add(u32::from(is_whole));
    }
    Some(count)
}

// The same of so many lines that are refused.
fn whole_refusals(alloc: Global, count: usize) -> Option<u32> {
    let steps = "hello\n".repeat(alloc, count).ok()?;
    let lines = "refused line\n".repeat(alloc, count).ok()?;
    whole_runs(alloc, (&[steps.as_str()], lines.as_str()), 100_000)
}

// Each write fails in turn: of a short text in pieces, and of one of more bytes than are written together.
#[test]
fn a_failed_write_leaves_a_beginning(rt: HostRuntime) {
    let short = whole_runs(rt.alloc(), (STEPS, LINES), 30);
    assert!(rt; short > Some(0) && short < Some(30));
    let long = whole_refusals(rt.alloc(), 12_000);
    assert!(rt; long > Some(0) && long < Some(38));
}

// Makes a run again and again, with one block of memory more given back before each time. How often it was refused memory before it was
// made; None where a refused run wrote something, or it ended otherwise.
fn refusals(
    alloc: Global,
    roster: &Arc<Roster>,
    held: &mut Vec<Vec<u8>>,
    inputs: &mut Vec<Vec<u8>>,
) -> Option<u32> {
    for refused in 0..4096u32 {
        let roster = roster.clone().ok()?;
        let ran = run(alloc, roster, inputs.pop()?, 8192, 8192, None, None);
        match ran.outcome {
            Ok(()) => return Some(refused),
            Err(ReplayFault::NoMemory) if ran.writer.written().is_empty() => {}
            Err(_) => return None,
        }
        held.pop()?;
    }
    None
}

// So many copies of a text.
fn copies(alloc: Global, text: &[&str], count: u32) -> Option<Vec<Vec<u8>>> {
    let mut copies = Vec::new(alloc);
    for _ in 0..count {
        let copy = text_of(alloc, text).ok()?;
        copies.push(copy).ok()?;
    }
    Some(copies)
}

// How often a run of these steps is refused memory until it is made.
fn refusals_of(alloc: Global, steps: &[&str]) -> Option<u32> {
    let roster = roster_of(alloc, ROSTER)?;
    let mut inputs = copies(alloc, steps, 4096)?;
    let mut held = Vec::with_capacity(alloc, BLOCKS).ok()?;
    take_all(alloc, &mut held).ok()?;
    refusals(alloc, &roster, &mut held, &mut inputs)
}

#[test]
fn memory_refused_to_a_whole_run(rt: HostRuntime) {
    assert!(rt; refusals_of(rt.alloc(), REQUESTS) > Some(0));
    assert!(rt; refusals_of(rt.alloc(), STEPS) > Some(0));
}
