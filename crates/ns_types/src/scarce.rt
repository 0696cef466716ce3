//! Memory that is really gone, for tests of what follows where an allocation is refused.

use std::alloc::{AllocError, Global};

/// How many blocks a test holds at most.
pub const BLOCKS: usize = 200_000;

// How much of the stack one of two functions uses before memory is gone, in bytes.
const STACK: usize = 262_144;

// Writes to all of this, and adds up what stands there then: no compiler leaves out the room for it.
#[inline(never)]
fn write_all_of(room: &mut [u8], seed: u8) -> u32 {
    let mut next = seed;
    for byte in room.iter_mut() {
        *byte = next;
        next = next.wrapping_mul(5).wrapping_add(1);
    }
    let mut sum = 0u32;
    for byte in room.iter() {
        sum = sum.wrapping_add(u32::from(*byte));
    }
    sum
}

// Uses half of the stack that a test may need.
#[inline(never)]
fn use_half(seed: u8) -> u32 {
    let mut room = [0u8; STACK];
    write_all_of(&mut room, seed)
}

/// Uses 512 KB of the stack, once, and says that it did. Where no address is left the stack cannot grow any more, and a test would end by
/// a signal: so this is called before all memory is taken, by a function from which a test goes less deep.
#[inline(never)]
pub fn use_stack() -> bool {
    let mut room = [0u8; STACK];
    let below = use_half(1);
    // (what a caller asks for is not left out)
    write_all_of(&mut room, 2).wrapping_add(below) != 0
}

/// Takes all memory that is left, in blocks of falling size, into a list that has room for `BLOCKS`. The stack is used before.
pub fn take_all(alloc: Global, held: &mut Vec<Vec<u8>>) -> Result<(), AllocError> {
    if !use_stack() {
        return Err(AllocError);
    }
    take_rest(alloc, held)
}

/// The same where the stack was used before.
pub fn take_rest(alloc: Global, held: &mut Vec<Vec<u8>>) -> Result<(), AllocError> {
    let mut size = 1usize << 47;
    for _ in 0..400_000u32 {
        if size < 16 || held.len() >= BLOCKS {
            break;
        }
        match Vec::with_capacity(alloc, size) {
            Ok(block) => held.push(block)?,
            Err(_) => size /= 2,
        }
    }
    Ok(())
}
