//! Memory that is really gone: it is refused to the calls of a worked run until enough of it was given back.
//!
//! Blocks are given back one at a time, the smallest first. Several growths of one call may pass with one block, so these tests show what
//! a refused call leaves and that it is answered in the end; each growth is refused alone in `alone`.

use crate::calls::{answers, call_of, roster};
use ns_calls::{Call, Entry};
use ns_device::worked::{ANSWER, JOIN, JOIN_2, UNKNOWN, UPLINK, UPLINK_2};
use ns_runs::new_shards;
use ns_shard::Shard;
use ns_types::{BLOCKS, take_all};
use std::alloc::Global;

/// Each step, the line of its answer, and how often memory is refused to it at least.
pub type Steps = &'static [(&'static str, &'static str, u64)];

/// A join that two gateways hear, its answer, an answer too many, and an uplink that two gateways hear. The first entry and the first
/// window need memory.
pub const WORKED: Steps = &[
    (
        JOIN,
        "ask 0004030201040302010d00000000000000010001000000",
        1,
    ),
    (JOIN_2, "joincopied 2", 0),
    (ANSWER, "accepted 000000000000000d 1 49be7df1", 0),
    (ANSWER, "noticket", 0),
    (UPLINK, "opened 000000000000000d 1 2", 1),
    (UPLINK_2, "copied 000000000000000d 1 2 2", 0),
];

/// A Join-Request of a device that is not in the roster.
pub const NO_DEVICE: Steps = &[(UNKNOWN, "nodevice", 1)];

// Makes a call until its answer begins with this line, with one block of memory more given back before each time. How often memory was
// refused, where each time the shard was left as it was.
fn until_answered(
    shard: &mut Shard,
    call: &Call,
    want: &str,
    before: &[Entry],
    held: &mut Vec<Vec<u8>>,
) -> Option<u64> {
    let oldest = shard.oldest();
    for refused in 0..BLOCKS as u64 {
        match answers(shard, call, want) {
            Some(true) => return Some(refused),
            Some(false) => return None,
            None => {}
        }
        if shard.entries() != before || shard.oldest() != oldest {
            return None;
        }
        held.pop()?;
    }
    None
}

// Makes the call of a step with all memory taken, gives it back, and adds the entry to those before. How often memory was refused.
fn refusals(
    alloc: Global,
    shard: &mut Shard,
    before: &mut Vec<Entry>,
    held: &mut Vec<Vec<u8>>,
    line: &str,
    want: &str,
) -> Option<u64> {
    let call = call_of(alloc, line)?;
    take_all(alloc, held).ok()?;
    let refused = until_answered(shard, &call, want, before.as_slice(), held)?;
    held.clear();
    before.push(*shard.entries().last()?).ok()?;
    Some(refused)
}

// The first of the steps that a shard with no entries answers otherwise than as wanted, or with memory refused less often.
fn other_step(alloc: Global, shard: &mut Shard, steps: Steps) -> Option<&'static str> {
    let mut held = Vec::with_capacity(alloc, BLOCKS).ok()?;
    let mut before = Vec::with_capacity(alloc, steps.len()).ok()?;
    for &(line, want, least) in steps {
        if refusals(alloc, shard, &mut before, &mut held, line, want) < Some(least) {
            return Some(want);
        }
    }
    None
}

// Whether a shard with no entries answers these steps so. None where there is no such shard.
fn is_refused(alloc: Global, index: usize, steps: Steps) -> Option<bool> {
    let mut shards = new_shards(alloc, roster(alloc)?).ok()?;
    Some(other_step(alloc, shards.get_mut(index)?, steps).is_none())
}

// Where memory is refused the entries and the windows are as before, and the same call made with memory gives the reply of the worked
// run.
#[test]
fn memory_refused_to_a_run(rt: HostRuntime) {
    assert!(rt; is_refused(rt.alloc(), 13, WORKED) == Some(true));
    assert!(rt; is_refused(rt.alloc(), 14, NO_DEVICE) == Some(true));
}
