//! Late copies of frames whose windows were closed, of all shards. A copy is late for 2 s.

use ns_front::{FrameName, Lates};
use std::alloc::Global;
use std::sync::Wait;

// The frame with this counter and MIC of a device of a shard.
fn frame_of(shard: u8, fcnt: u16, mic: u32) -> FrameName {
    FrameName {
        addr: u32::from(shard).wrapping_mul(0x20_0000),
        fcnt,
        mic,
    }
}

// When the window of a shard's frame is closed.
fn due_of(shard: u8) -> u64 {
    u64::from(shard).wrapping_add(5000)
}

// Whether a copy of a shard's frame is late from the closing of its window on, for 2 s.
fn is_late_for_2_s<R: Wait>(rt: &R, lates: &Lates, shard: u8) -> bool {
    let (frame, due) = (frame_of(shard, 7, 8), due_of(shard));
    lates.due(rt, frame) == Some(due)
        && !lates.is_late(rt, frame, due.wrapping_sub(1))
        && lates.is_late(rt, frame, due)
        && lates.is_late(rt, frame, due.wrapping_add(1999))
        && !lates.is_late(rt, frame, due.wrapping_add(2000))
}

// Whether that is so of a frame of each shard.
fn are_late_for_2_s<R: Wait>(rt: &R, lates: &Lates) -> bool {
    for shard in 0..16 {
        lates.note(rt, frame_of(shard, 7, 8), due_of(shard));
    }
    for shard in 0..16 {
        if !is_late_for_2_s(rt, lates, shard) {
            return false;
        }
    }
    true
}

// Whether no frame is late that differs in its counter, its address or its MIC from the one that is noted.
fn are_others_in_time<R: Wait>(rt: &R, lates: &Lates) -> bool {
    lates.note(rt, frame_of(3, 7, 8), 5000);
    for &other in &[frame_of(3, 9, 8), frame_of(4, 7, 8), frame_of(3, 7, 9)] {
        if lates.is_late(rt, other, 5000) || lates.due(rt, other).is_some() {
            return false;
        }
    }
    true
}

// Whether the frame of shard 3 with this counter, which is its MIC too, is late.
fn is_late<R: Wait>(rt: &R, lates: &Lates, fcnt: u16) -> bool {
    lates.is_late(rt, frame_of(3, fcnt, u32::from(fcnt)), 5000)
}

// Notes 4,096 such frames. Whether the first is late.
fn is_first_of_4096_late<R: Wait>(rt: &R, lates: &Lates) -> bool {
    for fcnt in 0..4096 {
        lates.note(rt, frame_of(3, fcnt, u32::from(fcnt)), 5000);
    }
    is_late(rt, lates, 0)
}

// Notes one more. Whether the first alone is not late any more.
fn goes_first_alone<R: Wait>(rt: &R, lates: &Lates) -> bool {
    lates.note(rt, frame_of(3, 4096, 4096), 5000);
    for &kept in &[1, 1024, 2048, 3072, 4095] {
        if !is_late(rt, lates, kept) {
            return false;
        }
    }
    !is_late(rt, lates, 0)
}

// What is so where no frame was noted.
#[derive(Clone, Copy)]
enum Kept {
    // A copy is late from the closing of its window on, for just as long as was asked for, in each of the sixteen shards.
    ForAWhile,
    // A frame with the same MIC, but another counter or another address, is not late, nor is one with another MIC.
    Alone,
    // Of one shard 4,096 frames are kept where four stand in each row: with one more the first of its row goes, and no other.
    By4096,
}

// Whether it is.
fn is_so<R: Wait>(rt: &R, alloc: Global, kept: Kept) -> bool {
    let Ok(lates) = Lates::new(alloc, 2000) else {
        return false;
    };
    match kept {
        Kept::ForAWhile => are_late_for_2_s(rt, &lates),
        Kept::Alone => are_others_in_time(rt, &lates),
        Kept::By4096 => is_first_of_4096_late(rt, &lates) && goes_first_alone(rt, &lates),
    }
}

// Whether all of it is.
fn are_so<R: Wait>(rt: &R, alloc: Global) -> bool {
    is_so(rt, alloc, Kept::ForAWhile)
        && is_so(rt, alloc, Kept::Alone)
        && is_so(rt, alloc, Kept::By4096)
}

#[test]
fn copies_are_late(rt: HostRuntime) {
    assert!(rt; are_so(&rt, rt.alloc()));
}
