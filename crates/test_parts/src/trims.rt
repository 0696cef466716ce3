//! A trim in place, with memory for it.

use crate::calls::{call_of, roster};
use ns_calls::{Entry, shard_of_call};
use ns_device::worked::{ANSWER, JOIN, JOIN_2};
use ns_runs::new_shards;
use ns_shard::Shard;
use std::alloc::Global;

// Makes the call of a step line at the shard of its device.
fn is_made(alloc: Global, shard: &mut Shard, line: &str) -> bool {
    let Some(call) = call_of(alloc, line) else {
        return false;
    };
    if shard_of_call(&call) != shard.index() {
        return false;
    }
    shard.apply(call).is_ok()
}

/// Makes a join of two copies and its answer.
pub fn is_joined(alloc: Global, shard: &mut Shard) -> bool {
    is_made(alloc, shard, JOIN) && is_made(alloc, shard, JOIN_2) && is_made(alloc, shard, ANSWER)
}

// Makes the join, and trims the shard, in place or not.
fn is_trimmed(alloc: Global, shard: &mut Shard, is_in_place: bool) -> bool {
    if !is_joined(alloc, shard) {
        return false;
    }
    if is_in_place {
        shard.trim_in_place(alloc).is_ok()
    } else {
        shard.trim(alloc).is_ok()
    }
}

// The one entry that a trim leaves of a join, and the mark of its shard. None where another number is left, or there is no memory.
fn left(alloc: Global, is_in_place: bool) -> Option<(Entry, u64)> {
    let mut shards = new_shards(alloc, roster(alloc)?).ok()?;
    let shard = shards.get_mut(13)?;
    if !is_trimmed(alloc, shard, is_in_place) {
        return None;
    }
    match shard.entries() {
        [entry] => Some((*entry, shard.mark())),
        _ => None,
    }
}

#[test]
fn a_trim_in_place_leaves_what_a_trim_leaves(rt: HostRuntime) {
    let left_in_place = left(rt.alloc(), true);
    assert!(rt; left_in_place.is_some() && left_in_place == left(rt.alloc(), false));
}
