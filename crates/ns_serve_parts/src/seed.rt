//! What the tables under numbers from outside are hashed with.

use std::collections::hash_map::RandomState;
use std::io;
use std::random::RandomSource;
use std::time::{Clock, Duration};

// The time at which a server began, by both clocks to the nanosecond, which nobody outside knows.
#[derive(Clone, Copy)]
struct Began {
    since_1970: Duration,
    since_boot: Duration,
}

impl RandomSource for Began {
    fn fill_bytes(&self, buf: &mut [u8]) -> io::Result<()> {
        let front = self.since_1970.as_nanos().to_le_bytes();
        let back = self.since_boot.as_nanos().to_le_bytes();
        for (byte, known) in buf.iter_mut().zip(front.iter().zip(back.iter())) {
            *byte = known.0 ^ known.1.reverse_bits();
        }
        Ok(())
    }
}

/// Keys of a hash that no choice of numbers from outside makes slow.
pub fn keys<R: Clock>(rt: &R) -> io::Result<RandomState> {
    let began = Began {
        since_1970: rt.since_1970()?,
        since_boot: rt.monotonic()?,
    };
    RandomState::new(&began)
}
