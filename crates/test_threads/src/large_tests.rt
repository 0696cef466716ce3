//! Shards with as much in them as they may have: two long trims of each of the sixteen, of which the second is in place, one with more than
//! a million entries before a device joins and its uplinks come; and a shard of 65,536 devices with 100,000 open windows.
//!
//! No contract says that these find memory, so a body that refuses them would be proved. What comes of them follows from the rules of a
//! trim.

use crate::caller::{Caller, Ended};
use crate::series::{Series, WINDOWS, closing_at, done_of};
use crate::trial::{Trial, on_roster, on_server, shared_roster};
use std::test::*;

#[test]
fn long_trims_of_each_shard(rt: HostRuntime) {
    on_server(&rt, rt.alloc(), 16, Trial::LongTrims);
}

#[test]
fn windows_of_65536_devices(rt: HostRuntime) {
    let roster = shared_roster(rt.alloc(), 13, 16, 65_536);
    on_roster(&rt, rt.alloc(), roster, 1, Trial::ManyWindows);
}

// Whether so many entries were made in a shard before its trim, and so many come out, or none where it is in place and counts them.
fn trims<C: Caller>(caller: &mut C, shard: u8, in_place: bool, mark: u64, out: u64) -> bool {
    let shown = if in_place { 0 } else { out };
    match caller.trim(shard, in_place) {
        Ok(trimmed) => {
            (trimmed.mark, trimmed.count) == (mark, out) && trimmed.entries.len() as u64 == shown
        }
        Err(_) => false,
    }
}

// How many closings come to a shard before the others, for windows that are not open.
fn late(shard: u8) -> u32 {
    if shard == 13 { 1_000_001 } else { 0 }
}

// How many entries each of two trims takes out of a shard.
fn out(shard: u8) -> u32 {
    late(shard).wrapping_add(60_000)
}

// The late closings come. Then the calls of these places are made: a device joins, and its uplinks are heard and closed. Whether each of
// these did what it is for.
fn is_filled<C: Caller>(caller: &mut C, shard: u8, first: u32, end: u32) -> bool {
    let device = u32::from(shard);
    let _ = done_of(caller, Series::Late(device), 0, late(shard));
    done_of(caller, Series::Filling(device), first, end) == end.wrapping_sub(first)
}

// A shard is filled and trimmed twice, the second time in place. Whether what stays is each time the accepted join and the last opening.
fn is_trimmed_twice<C: Caller>(caller: &mut C, shard: u8) -> bool {
    let (mark, end) = marks(shard);
    is_filled(caller, shard, 0, 60_002)
        && trims(caller, shard, false, mark, u64::from(out(shard)))
        && is_filled(caller, shard, 60_002, 120_002)
        && trims(caller, shard, true, end, u64::from(out(shard)))
}

// How many entries were made in a shard by the first trim, and by the second.
fn marks(shard: u8) -> (u64, u64) {
    let out = u64::from(out(shard));
    (out + 2, out + out + 2)
}

/// Fills each shard twice, and trims it each time. How many entries were made.
pub fn long_trims<C: Caller>(caller: &mut C) -> Option<u64> {
    for shard in 0..16u8 {
        if !is_trimmed_twice(caller, shard) {
            return None;
        }
    }
    Some(3_920_034)
}

/// Whether two entries are left in each shard behind its second trim, by which all others were dropped, and no window is open.
pub fn are_left_twice<E: Ended>(settled: &mut E) -> bool {
    for shard in 0..16u8 {
        let (_, end) = marks(shard);
        if settled.counts(shard) != (end, end.wrapping_sub(2), 2) {
            return false;
        }
    }
    settled.drain_next().is_none()
}

/// All devices of shard 13 join, and some have eight windows each, of which the later half is closed, the last first. A trim before has
/// to keep all accepted joins and all openings, and one in place after has to drop just the closings and, of each device without open
/// windows, the openings but the last. How many entries were made.
pub fn many_windows<C: Caller>(caller: &mut C) -> Option<u64> {
    let is_right = done_of(caller, Series::Joining, 0, 131_072) == 131_072
        && done_of(caller, Series::Hearing, 0, WINDOWS) == WINDOWS
        && trims(caller, 13, false, 231_072, 65_536)
        && done_of(caller, Series::Closing, 0, WINDOWS / 2) == WINDOWS / 2
        && trims(caller, 13, true, 281_072, 93_750);
    is_right.then_some(281_072)
}

/// Closes what is open, the oldest first. Whether the windows come in the order in which they were opened, and half of them are open.
pub fn is_half_open<E: Ended>(settled: &mut E) -> bool {
    let mut count = 0u32;
    for window in 0..WINDOWS {
        let Some(receipt) = settled.drain_next() else {
            break;
        };
        count = count.wrapping_add(u32::from(receipt.entry.call == closing_at(window)));
    }
    count == WINDOWS / 2 && settled.total() == 331_072
}
