//! Memory that is really gone, and given back block by block.
//!
//! Several growths may pass with one block, so these tests show what a refusal leaves and that the work is done in the end; each growth is
//! refused alone in `alone_tests`.

use crate::caller::{Caller, reply_to};
use crate::gate_tests::Visited;
use crate::series::{DEVICE, Series, done_of};
use crate::trial::{Outcome, Trial, is_made, on_server, shared_roster};
use crate::work::Told;
use ns_calls::{Call, Reply};
use ns_device::traffic::{closing, join, join_reply, uplink};
use ns_roster::Roster;
use ns_shard::TrimFault;
use ns_types::{BLOCKS, take_all};
use std::alloc::Global;
use std::rt::Clock;
use std::sync::{Arc, Wait};
use std::test::*;
use std::thread::Threads;

// All memory that is left, taken.
fn taken(alloc: Global) -> Option<Vec<Vec<u8>>> {
    let mut held: Vec<Vec<u8>> = Vec::with_capacity(alloc, BLOCKS).ok()?;
    take_all(alloc, &mut held).ok()?;
    Some(held)
}

/// The reply to a call that is told at the gate.
pub fn told<C: Caller>(caller: &mut C, call: Call, gate: &Told) -> Option<Reply> {
    Some(caller.visit(call, Visited::Told(gate))?.entry.reply)
}

// Makes the call at a place of the run until it is answered, with one block of memory more given back before each time. Whether the
// reply is as it is with memory, and memory was refused before where an entry or a window is the first. None where a refused call was
// counted, or told at the gate.
fn until_answered<C: Caller>(
    caller: &mut C,
    call: &Call,
    place: u32,
    held: &mut Vec<Vec<u8>>,
) -> Option<bool> {
    let (made, gate) = (caller.made(13), Told::new());
    for refusals in 0..BLOCKS {
        if let Some(reply) = told(caller, *call, &gate) {
            return Some(is_at(place, &reply, refusals > 0));
        }
        if caller.made(13) != made || gate.entries() > 0 {
            return None;
        }
        held.pop()?;
    }
    None
}

/// The calls of a run: a join, its answer, an answer too many, and an uplink that two gateways hear.
pub fn call_at(place: u32) -> Option<Call> {
    match place {
        0 => Some(join(DEVICE, 1)),
        1 | 2 => Some(join_reply(DEVICE, 1)),
        3 => uplink(DEVICE, 0, true, 1),
        4 => uplink(DEVICE, 0, true, 2),
        _ => Some(closing(DEVICE, 1, 0)),
    }
}

/// Whether it is the reply to the run's call at this place, and memory was refused where an entry or a window is the first.
pub fn is_at(place: u32, reply: &Reply, refused: bool) -> bool {
    match reply {
        Reply::Ask { .. } => place == 0 && refused,
        Reply::Accepted { .. } => place == 1,
        Reply::NoTicket => place == 2,
        Reply::Opened { .. } => place == 3 && refused,
        Reply::Copied { .. } => place == 4,
        Reply::Closed { .. } => place == 5,
        _ => false,
    }
}

// Whether the run's call at a place is answered as it is with memory, where all of it is taken before.
fn is_answered<C: Caller>(
    alloc: Global,
    caller: &mut C,
    place: u32,
    held: &mut Vec<Vec<u8>>,
) -> Option<bool> {
    take_all(alloc, held).ok()?;
    until_answered(caller, &call_at(place)?, place, held)
}

/// A refused call leaves the pass as it was and is not told at the gate, and the sum counts only what succeeded.
#[test]
fn calls_refused_until_memory_is_back(rt: HostRuntime) {
    on_server(&rt, rt.alloc(), 16, Trial::Refused);
}

/// The calls of a run, with all memory taken before each, are answered as they are with memory. How many entries were made.
pub fn calls_refused<C: Caller>(alloc: Global, caller: &mut C) -> Option<u64> {
    let mut held = taken(alloc)?;
    for place in 0..6u32 {
        if is_answered(alloc, caller, place, &mut held) != Some(true) {
            return None;
        }
    }
    Some(6)
}

/// Whether there is memory for a new server of four workers.
pub fn is_new<R: Threads + Wait + Clock + Sync>(
    rt: &R,
    alloc: Global,
    roster: &Arc<Roster>,
) -> Option<bool> {
    let roster = roster.clone().ok()?;
    is_made(
        rt,
        alloc,
        roster,
        4,
        Trial::Unused,
        &mut Outcome::new(alloc),
    )
    .ok()
}

// How often a new server is refused memory, with one block given back before each time but the first, until it is made. None where all
// were given back.
fn refusals<R: Threads + Wait + Clock + Sync>(rt: &R, alloc: Global) -> Option<usize> {
    let roster = shared_roster(alloc, 0, 1, 40)?;
    let mut held = taken(alloc)?;
    for refused in 0..BLOCKS {
        if is_new(rt, alloc, &roster)? {
            return (!held.is_empty()).then_some(refused);
        }
        held.pop()?;
    }
    None
}

/// A new server is refused memory more than once, and then made.
#[test]
fn server_refused_until_memory_is_back(rt: HostRuntime) {
    assert!(rt; refusals(&rt, rt.alloc()).is_some_and(|refused| refused > 1));
}

// Closes a window that is not open until memory is refused. How often it was answered.
fn until_refused<C: Caller>(caller: &mut C) -> Option<u64> {
    for answered in 0..1_000_000u64 {
        match reply_to(caller, closing(DEVICE, 1, 0)) {
            Some(Reply::NoWindow) => {}
            Some(_) => return None,
            None => return Some(answered),
        }
    }
    None
}

/// With eight windows and four tickets of one device open and all memory gone, each is closed or answered; a closing that finds no
/// window needs memory.
#[test]
fn closings_take_no_memory(rt: HostRuntime) {
    on_server(&rt, rt.alloc(), 16, Trial::Closings);
}

/// Eight windows and four tickets are opened, and closed and answered with all memory gone; then closings are answered until memory is
/// refused. How many entries were made.
pub fn closed_without<C: Caller>(alloc: Global, caller: &mut C) -> Option<u64> {
    let opened = done_of(caller, Series::Opening, 0, 14);
    let held = taken(alloc)?;
    let ended = done_of(caller, Series::Opening, 14, 26);
    let answered = until_refused(caller)?;
    let is_right = opened == 14 && ended == 12 && !held.is_empty();
    is_right.then_some(answered.wrapping_add(26))
}

// Trims the device's shard, with one block of memory given back before each time but the first. Whether it was refused memory before it
// handed out one entry.
fn is_trimmed_at_last<C: Caller>(caller: &mut C, held: &mut Vec<Vec<u8>>) -> Option<bool> {
    for refused in 0..BLOCKS {
        match caller.trim(13, false) {
            Ok(dropped) => return Some(refused > 0 && dropped.entries.len() == 1),
            Err(TrimFault::NoMemory) => {}
            Err(TrimFault::Full) => return None,
        }
        held.pop()?;
    }
    None
}

/// With eight windows and four tickets of one device open, a trim is refused memory (Z2, and never Z1); then it hands out the one entry
/// that it would have handed out at first, and the windows and tickets are still open.
#[test]
fn trim_refused_until_memory_is_back(rt: HostRuntime) {
    on_server(&rt, rt.alloc(), 16, Trial::TrimRefused);
}

/// A trim with all memory gone, between the openings and the closings. How many entries were made.
pub fn trim_refused<C: Caller>(alloc: Global, caller: &mut C) -> Option<u64> {
    let opened = done_of(caller, Series::Opening, 0, 14);
    let mut held = taken(alloc)?;
    let is_trimmed = is_trimmed_at_last(caller, &mut held)?;
    let ended = done_of(caller, Series::Opening, 14, 26);
    (opened == 14 && is_trimmed && ended == 12).then_some(26)
}
