//! Growths of memory that are refused alone, for tests. `tools/refuse_growth.c` refuses them, if it is loaded before the C library.
//!
//! A test speaks to that library by asking for sizes that no machine has. Without the library nothing is refused: a test that repeats
//! its calls until no growth was refused then makes them once. A growth is one call of the allocator, whoever makes it.

use std::alloc::Global;

// From this size on, the growth to be refused is how much more is asked for.
const REFUSE: usize = 1 << 50;

// Growths are not counted, or are counted again.
const PAUSE: usize = 1 << 51;

const RESUME: usize = PAUSE + 1;

// It is given if a growth was refused.
const WAS_REFUSED: usize = 1 << 52;

// Whether there is a block of this size. It is no part of its caller, so that no compiler leaves the question out.
#[inline(never)]
fn has_block(alloc: Global, size: usize) -> bool {
    match Vec::<u8>::with_capacity(alloc, size) {
        Ok(mut block) => block.push(1).is_ok(),
        Err(_) => false,
    }
}

/// Has growth number `n` from now on be refused, and no other; the first is number 1, and with 0 none is.
pub fn refuse(alloc: Global, n: u32) {
    let _ = has_block(alloc, REFUSE + n as usize);
}

/// Growths are not counted until `resume`.
pub fn pause(alloc: Global) {
    let _ = has_block(alloc, PAUSE);
}

/// Growths are counted again.
pub fn resume(alloc: Global) {
    let _ = has_block(alloc, RESUME);
}

/// Whether a growth was refused since `refuse`. Growths are not counted from now on.
pub fn was_refused(alloc: Global) -> bool {
    pause(alloc);
    has_block(alloc, WAS_REFUSED)
}
