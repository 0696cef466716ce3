//! Keys of a hash that are always the same.

use std::collections::hash_map::RandomState;
use std::io;
use std::random::RandomSource;

#[derive(Clone, Copy)]
struct Zeros;

impl RandomSource for Zeros {
    fn fill_bytes(&self, buf: &mut [u8]) -> io::Result<()> {
        buf.fill(0);
        Ok(())
    }
}

/// Keys that are all zeros.
pub fn zero_keys() -> Option<RandomState> {
    RandomState::new(&Zeros).ok()
}
