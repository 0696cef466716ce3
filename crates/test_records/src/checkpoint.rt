//! A checkpoint, read and written again. The text is of `tools/checkpoint.py`, and so is which line of a changed text is wrong.

use crate::rows::holds;
use ns_checkpoint::{Checkpoint, CheckpointFault, line_sum, read_checkpoint, write_checkpoint};
use std::alloc::{AllocError, Global};

// Two devices, one of them with two sessions and a ticket, and a window with two copies.
const TEXT: &str = "\
checkpoint 1 0000000000000016 0000000000001234\n\
shard 00\n\
device 0000000000000010 fffe 00000003 00000001 11111111111111111111111111111111 22222222222222222222222222222222 ffffffff 00000002 0000000100000000 00000002 33333333333333333333333333333333 - - 00000000 0000000000000000\n\
ticket 000102030405060708090a0b0c0d0e0f10111213141516 10 00000000000000a1 1112131415161718 33be27a0 05 fc18 004b\n\
device 0000000000000020 - 00000001\n\
window 0000000000000010 00000001 00000007 00000001 11111111111111111111111111111111 22222222222222222222222222222222 4001000000000100017465737401020304\n\
copy 00000000000000a1 1112131415161718 33be27a0 05 fc18 004b\n\
copy 00000000000000a2 1112131415161718 33be27a0 05 fc18 004b\n\
shard 01\n\
shard 02\n\
shard 03\n\
shard 04\n\
shard 05\n\
shard 06\n\
shard 07\n\
shard 08\n\
shard 09\n\
shard 0a\n\
shard 0b\n\
shard 0c\n\
shard 0d\n\
shard 0e\n\
shard 0f\n\
end 20f615784c7b2a0c\n\
";

// A text in it, what is put in the place of its first occurrence, and the fault of that.
const CHANGES: &[(&str, &str, CheckpointFault)] = &[
    ("checkpoint 1", "checkpoint 2", CheckpointFault::BadHead),
    (
        " 0000000000001234\n",
        " 0000000000001235\n",
        CheckpointFault::BadSum(24),
    ),
    (
        "1 0000000000000016",
        "1 0000000000000017",
        CheckpointFault::BadCount(23),
    ),
    ("fffe", "ffFe", CheckpointFault::BadLine(3)),
    ("13141516 10", "13141516 11", CheckpointFault::BadLine(4)),
    (
        "000102030405060708090a0b0c0d0e0f10111213141516",
        "0001",
        CheckpointFault::BadLine(4),
    ),
    ("shard 0f", "shard 0e", CheckpointFault::BadLine(23)),
    (
        "copy 00000000000000a2",
        "copy 00000000000000a3",
        CheckpointFault::BadSum(24),
    ),
    ("end ", "end  ", CheckpointFault::BadSum(24)),
    (
        "shard 05\nshard 06\n",
        "shard 06\nshard 05\n",
        CheckpointFault::BadLine(13),
    ),
    ("7b2a0c\n", "7b2a0c", CheckpointFault::Incomplete(24)),
];

// The checkpoint that a text begins with, and how many bytes follow it.
fn read(alloc: Global, text: &[u8]) -> Result<(Checkpoint, usize), CheckpointFault> {
    let mut source = text;
    let checkpoint = read_checkpoint(alloc, &mut source)?;
    Ok((checkpoint, source.len()))
}

// The text with one change.
fn changed(alloc: Global, old: &str, new: &str) -> Result<Vec<u8>, AllocError> {
    let mut text = Vec::new(alloc);
    match TEXT.split_once(old) {
        Some((front, behind)) => {
            text.extend_from_slice(front.as_bytes())?;
            text.extend_from_slice(new.as_bytes())?;
            text.extend_from_slice(behind.as_bytes())?;
        }
        None => text.extend_from_slice(TEXT.as_bytes())?,
    }
    Ok(text)
}

// Whether this change has this fault.
fn is_refused(alloc: Global, old: &str, new: &str, fault: CheckpointFault) -> bool {
    match changed(alloc, old, new) {
        Ok(text) => matches!(read(alloc, text.as_slice()), Err(found) if found == fault),
        Err(_) => false,
    }
}

// Whether the text is read up to the step lines after it, and is what is written of that.
fn comes_back(alloc: Global) -> bool {
    let Ok(mut text) = changed(alloc, "", "") else {
        return false;
    };
    if text.extend_from_slice(b"lost 00\n").is_err() {
        return false;
    }
    let Ok((checkpoint, behind)) = read(alloc, text.as_slice()) else {
        return false;
    };
    let mut written = Vec::new(alloc);
    checkpoint.ups == 0x1234
        && behind == 8
        && checkpoint.shards.len() == 16
        && write_checkpoint(&mut written, &checkpoint).is_ok()
        && written.as_slice() == TEXT.as_bytes()
}

#[test]
fn checkpoints_are_written_as_they_are_read(rt: HostRuntime) {
    assert!(rt; comes_back(rt.alloc()));
    assert!(rt; line_sum(b"device 0000000000000020 - 00000001") == [0x86, 0xc9, 0xfa, 0x3d]);
}

#[test]
fn changed_checkpoints_are_refused(rt: HostRuntime) {
    let mut number = 1;
    for &(old, new, fault) in CHANGES {
        number = holds(&rt, is_refused(rt.alloc(), old, new, fault), number);
    }
}
