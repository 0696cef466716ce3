//! Each growth refused alone: that of number 1, of number 2 and so on, until a run meets no refusal (`growths` of ns_device). Where nothing
//! refuses growths, each run is made once.

use crate::caller::{Caller, Trimmed};
use crate::growth_tests::{call_at, is_at, is_new, told};
use crate::series::{Series, done_of};
use crate::trial::{Trial, on_server, shared_roster};
use crate::work::Told;
use ns_device::growths::{pause, refuse, resume, was_refused};
use ns_roster::Roster;
use ns_shard::TrimFault;
use std::alloc::Global;
use std::rt::Clock;
use std::sync::{Arc, Wait};
use std::test::*;
use std::thread::Threads;

/// More growths than any of these has.
pub const MOST: u32 = 10_000;

// Makes the call at a place of the run, and once more if it was refused memory: then it was not counted, nor told at the gate. Whether the
// reply is as it is with memory.
fn is_answered<C: Caller>(alloc: Global, caller: &mut C, place: u32) -> Option<bool> {
    let call = call_at(place)?;
    let (made, gate) = (caller.made(13), Told::new());
    resume(alloc);
    let first = told(caller, call, &gate);
    pause(alloc);
    match first {
        Some(reply) => Some(is_at(place, &reply, true)),
        None if caller.made(13) != made || gate.entries() > 0 => None,
        None => Some(is_at(place, &told(caller, call, &gate)?, true)),
    }
}

/// The calls of a run, with growth `n` of them refused, are answered as they are with memory. How many entries were made.
pub fn calls_alone<C: Caller>(alloc: Global, caller: &mut C, n: u32) -> Option<u64> {
    refuse(alloc, n);
    pause(alloc);
    for place in 0..6u32 {
        if is_answered(alloc, caller, place) != Some(true) {
            return None;
        }
    }
    Some(6)
}

/// A refused call leaves the pass as it was and is not told at the gate, and the sum counts only what succeeded.
#[test]
fn each_growth_of_a_servers_calls(rt: HostRuntime) {
    for n in 1..MOST {
        on_server(&rt, rt.alloc(), 16, Trial::CallsAlone(n));
        if !was_refused(rt.alloc()) {
            break;
        }
    }
}

// Trims the device's shard, and once more if it was refused memory.
fn trimmed<C: Caller>(alloc: Global, caller: &mut C, n: u32) -> Option<Trimmed> {
    refuse(alloc, n);
    let first = caller.trim(13, false);
    let refused = was_refused(alloc);
    match first {
        Err(TrimFault::NoMemory) if refused => caller.trim(13, false).ok(),
        _ => first.ok(),
    }
}

/// A trim with growth `n` refused, between the openings and the closings of eight windows and four tickets. How many entries were made.
pub fn trim_alone<C: Caller>(alloc: Global, caller: &mut C, n: u32) -> Option<u64> {
    let opened = done_of(caller, Series::Opening, 0, 14);
    let trimmed = trimmed(alloc, caller, n)?;
    let ended = done_of(caller, Series::Opening, 14, 26);
    (opened == 14 && trimmed.entries.len() == 1 && ended == 12).then_some(26)
}

/// A trim that is refused memory (Z2) leaves all as it was: the next one hands out the same entry.
#[test]
fn each_growth_of_a_servers_trim(rt: HostRuntime) {
    for n in 1..MOST {
        on_server(&rt, rt.alloc(), 16, Trial::TrimAlone(n));
        if !was_refused(rt.alloc()) {
            break;
        }
    }
}

// Makes a new server with growth `n` refused, and once more if there was none. Whether a growth was refused; None if there is no server
// without a refusal, or with memory.
fn new_alone<R: Threads + Wait + Clock + Sync>(
    rt: &R,
    alloc: Global,
    roster: &Arc<Roster>,
    n: u32,
) -> Option<bool> {
    refuse(alloc, n);
    let is_made = is_new(rt, alloc, roster)?;
    let refused = was_refused(alloc);
    (is_made || refused && is_new(rt, alloc, roster)?).then_some(refused)
}

// The growths of a new server that were refused, one in each try but the last. None if one of them came out otherwise.
fn each_new<R: Threads + Wait + Clock + Sync>(rt: &R, alloc: Global) -> Option<u32> {
    let roster = shared_roster(alloc, 0, 1, 40)?;
    for n in 1..MOST {
        if !new_alone(rt, alloc, &roster, n)? {
            return Some(n);
        }
    }
    None
}

/// There is a new server, or none and a growth was refused.
#[test]
fn each_growth_of_a_new_server(rt: HostRuntime) {
    assert!(rt; each_new(&rt, rt.alloc()).is_some());
}
