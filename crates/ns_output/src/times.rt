//! Times of the wall clock.

/// A moment of the wall clock in UTC, to the millisecond.
#[derive(Clone, Copy, PartialEq, Eq)]
pub struct Utc {
    pub year: u16,
    pub month: u8,
    pub day: u8,
    pub hour: u8,
    pub minute: u8,
    pub second: u8,
    pub millisecond: u16,
}

/// When an uplink's first copy came, and when its line was written.
#[derive(Clone, Copy, PartialEq, Eq)]
pub struct Times {
    pub heard: Utc,
    pub written: Utc,
}
