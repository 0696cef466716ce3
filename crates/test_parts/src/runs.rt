//! Runs of steps: two of 100,002, by `Shards::run` and by `Shards::step_and_trim`, and one to which memory is refused.
//!
//! No contract says that a run finds memory, so a body that refuses many steps would be proved.

use crate::calls::{act_of, begins_with, roster};
use crate::growth::{NO_DEVICE, Steps, WORKED};
use ns_acts::Step;
use ns_calls::{Call, Reply};
use ns_device::calls::{join, join_reply, ticket, uplink};
use ns_device::traffic::roster_of;
use ns_device::worked::{CLOSE, UPLINK};
use ns_record::step_line;
use ns_roster::Roster;
use ns_runs::{Shards, TRIM_FROM, Taken};
use ns_types::{BLOCKS, DevEui, WindowName, take_all};
use std::alloc::Global;
use std::sync::Arc;

// How many steps there are: a join, and 50,000 uplinks that are heard and closed.
const STEPS: u32 = 100_002;

// The window of the uplink whose call stands at a place, or its closing.
fn window_at(place: u32) -> WindowName {
    WindowName {
        eui: DevEui(13),
        session: 1,
        fcnt: (place / 2).wrapping_sub(1),
        round: 1,
    }
}

// The call at a place.
fn call_at(place: u32) -> Option<Call> {
    let window = window_at(place);
    match place {
        0 => Some(join(13, 1, 1)),
        1 => Some(join_reply(13, 1, true)),
        _ if place % 2 == 0 => uplink(13, 1, window.fcnt, false, 1),
        _ => Some(Call::Close { window }),
    }
}

// The step of a line, by a worker.
fn step_of(alloc: Global, worker: u32, line: &str) -> Option<Step> {
    let act = act_of(alloc, line)?;
    Some(Step { worker, act })
}

// All steps, by seven workers.
fn long_steps(alloc: Global) -> Option<Vec<Step>> {
    let mut steps = Vec::new(alloc);
    for place in 0..STEPS {
        let line = step_line(&call_at(place)?);
        let step = step_of(alloc, place % 7, line.as_str())?;
        steps.push(step).ok()?;
    }
    Some(steps)
}

// Whether it is the reply to the call at a place.
fn is_reply_at(place: u32, reply: &Reply) -> bool {
    match reply {
        Reply::Ask { ticket: asked } => place == 0 && *asked == ticket(13, 1),
        Reply::Accepted { eui, session, .. } => place == 1 && (eui.0, *session) == (13, 1),
        Reply::Opened { window } => place % 2 == 0 && *window == window_at(place),
        Reply::Closed { window, ack: None } => place % 2 == 1 && *window == window_at(place),
        _ => false,
    }
}

// Whether the step at a place made the entry of that number in shard 13, with the reply to its call.
fn is_made_at(place: u32, taken: &Taken) -> bool {
    match taken {
        Taken::Made {
            shard: 13,
            number,
            answer,
        } => *number == u64::from(place) && is_reply_at(place, &answer.reply()),
        _ => false,
    }
}

// The roster of the device, whose slot is its number.
fn one_device(alloc: Global) -> Option<Arc<Roster>> {
    Arc::new(alloc, roster_of(alloc, 13, 1, 1).ok()?).ok()
}

// How many of the steps came out right, and of how many.
fn right_steps(alloc: Global) -> Option<(u32, usize)> {
    let steps = long_steps(alloc)?;
    let run = Shards::run(alloc, one_device(alloc)?, steps.as_slice()).ok()?;
    let mut place = 0u32;
    let mut right = 0u32;
    for taken in run.taken.as_slice() {
        right = right.wrapping_add(u32::from(is_made_at(place, taken)));
        place = place.wrapping_add(1);
    }
    Some((right, run.taken.len()))
}

#[test]
fn a_hundred_thousand_steps(rt: HostRuntime) {
    assert!(rt; right_steps(rt.alloc()) == Some((STEPS, 100_002)));
}

// How many of the steps come out right at shards that are trimmed between them, and how many entries their shard has at the end.
fn right_trimmed_steps(alloc: Global) -> Option<(u32, usize)> {
    let steps = long_steps(alloc)?;
    let mut shards = Shards::new(alloc, one_device(alloc)?).ok()?;
    let mut place = 0u32;
    let mut right = 0u32;
    'steps: for step in steps.as_slice() {
        let taken = shards
            .step_and_trim(alloc, step.worker, &step.act.lend())
            .ok()?;
        right = right.wrapping_add(u32::from(is_made_at(place, &taken)));
        place = place.wrapping_add(1);
    }
    Some((right, shards.as_slice().get(13)?.entries().len()))
}

// They come out the same, and the shard does not grow with them.
#[test]
fn trims_between_steps(rt: HostRuntime) {
    let (right, entries) = right_trimmed_steps(rt.alloc()).unwrap_or((0, 0));
    assert!(rt; right == STEPS && entries < TRIM_FROM);
}

// The closing of the window that the worked steps open, the same once more, and their uplink.
const CLOSINGS: Steps = &[
    (CLOSE, "closed 000000000000000d 1 2 -", 0),
    (CLOSE, "nowindow", 0),
    (UPLINK, "old 000000000000000d 1 2", 0),
];

// A run of ten steps.
const TEN: [Steps; 3] = [WORKED, NO_DEVICE, CLOSINGS];

/// The steps of it.
pub fn ten_steps(alloc: Global) -> Option<Vec<Step>> {
    let mut steps = Vec::new(alloc);
    for part in TEN {
        for &(line, _, _) in part {
            steps.push(step_of(alloc, 0, line)?).ok()?;
        }
    }
    Some(steps)
}

// Whether the answer to a step begins with this line.
fn is_answered(taken: Option<&Taken>, line: &str) -> bool {
    match taken {
        Some(Taken::Made { answer, .. }) => begins_with(&answer.to_answer(), line),
        _ => false,
    }
}

/// Whether just the steps of the run are answered, each as is wanted.
pub fn are_answered(taken: &[Taken]) -> bool {
    let mut place = 0usize;
    for part in TEN {
        for &(_, line, _) in part {
            if !is_answered(taken.get(place), line) {
                return false;
            }
            place = place.wrapping_add(1);
        }
    }
    place == taken.len()
}

// Makes the run again and again, with one block of memory more each time. How often it was refused; None where it is not answered as is
// wanted at last.
fn run_refusals(
    alloc: Global,
    roster: &Arc<Roster>,
    steps: &[Step],
    held: &mut Vec<Vec<u8>>,
) -> Option<u64> {
    for refused in 0..BLOCKS as u64 {
        if let Ok(run) = Shards::run(alloc, roster.clone().ok()?, steps) {
            return are_answered(run.taken.as_slice()).then_some(refused);
        }
        held.pop()?;
    }
    None
}

// How often the run is refused where all memory is gone and given back block by block.
fn refusals(alloc: Global) -> Option<u64> {
    let roster = roster(alloc)?;
    let steps = ten_steps(alloc)?;
    let mut held: Vec<Vec<u8>> = Vec::with_capacity(alloc, BLOCKS).ok()?;
    take_all(alloc, &mut held).ok()?;
    run_refusals(alloc, &roster, steps.as_slice(), &mut held)
}

// There is no run, until there is memory for all of it. Blocks are given back one at a time, and several growths may pass with one, so they
// may be refused together; `alone` refuses each alone.
#[test]
fn memory_refused_to_a_whole_run(rt: HostRuntime) {
    assert!(rt; refusals(rt.alloc()) > Some(1));
}
