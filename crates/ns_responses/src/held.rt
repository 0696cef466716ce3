//! Bytes that were read and not given.

ghost use Rattle.std.specs.Prelude.{◌≡◌, ◌≤◌, ◌<◌, [], ◌++◌, true, false, is_err, length, take, drop, min, slice_range};
ghost use Rattle.ns_responses.specs.Held.{HeldBytes, unready, Fills};

use ns_types::{Failed, Source};
use std::marker::Model;

/// The most bytes that are held.
pub(crate) const ROOM: usize = 4096;

/// Bytes that were read of a stream and not given, at most 4,096: first those that are ready to be given, and then those
/// that are yet to be looked at.
#[derive(Drop)]
pub(crate) struct Held {
    bytes: [u8; ROOM],
    start: usize,
    // Where the ready ones end.
    middle: usize,
    end: usize,
}

impl Model for Held {
    ghost Value = { HeldBytes };

    ghost view = { λ h. record { ready = slice_range h.bytes h.start h.middle; unread = slice_range h.bytes h.middle h.end } };

    ghost invariant = { λ h. (h.start ≤ h.middle) × (h.middle ≤ h.end) × (h.end ≤ 4096) };
}

impl Held {
    /// No byte yet.
    pub fn new() -> Self
        ensures { result ≡ unready [] }
    {
        Held {
            bytes: [0; ROOM],
            start: 0,
            middle: 0,
            end: 0,
        }
    }

    /// Whether any byte is ready.
    pub fn is_ready(&self) -> bool
        ensures ready { result ≡ true → 0 < length self.now.ready }
        ensures unready { result ≡ false → self.now.ready ≡ [] }
    {
        self.start < self.middle
    }

    /// The bytes behind those that are ready.
    pub fn unread(&self) -> &[u8]
        ensures value { result.now ≡ self.now.unread }
        ensures bound { length self.now.unread ≤ 4096 }
    {
        &self.bytes[self.middle..self.end]
    }

    /// Leaves out the first bytes.
    pub fn skip(&mut self, count: usize)
        requires unready { self.old.ready ≡ [] }
        requires within { count ≤ length self.old.unread }
        ensures { self.new ≡ unready (drop count self.old.unread) }
    {
        self.middle += count;
        self.start = self.middle;
    }

    /// Makes the first bytes ready.
    pub fn release(&mut self, count: usize)
        requires unready { self.old.ready ≡ [] }
        requires within { count ≤ length self.old.unread }
        ensures { self.new ≡ record { ready = take count self.old.unread; unread = drop count self.old.unread } }
    {
        self.middle += count;
    }

    /// Leaves out the bytes between two places.
    pub fn cut(&mut self, from: usize, to: usize)
        requires unready { self.old.ready ≡ [] }
        requires within { (from ≤ to) × (to ≤ length self.old.unread) }
        ensures { self.new ≡ unready (take from self.old.unread ++ drop to self.old.unread) }
    {
        self.bytes
            .copy_within(self.middle + to..self.end, self.middle + from);
        self.end -= to - from;
    }

    /// Gives the first bytes that are ready, as many as fit, and says how many.
    pub fn give(&mut self, buf: &mut [u8]) -> usize
        ensures count { result ≡ min (length self.old.ready) (length buf.old) }
        ensures len { length buf.new ≡ length buf.old }
        ensures given { take result buf.new ≡ take result self.old.ready }
        ensures rest { self.new ≡ record self.old { ready = drop result self.old.ready } }
    {
        let n = buf.len().min(self.middle - self.start);
        buf[..n].copy_from_slice(&self.bytes[self.start..self.start + n]);
        self.start += n;
        n
    }

    /// Reads further bytes, at most so many, and says how many came: 0 at the end of the stream alone.
    pub fn fill<S: Source>(&mut self, source: &mut S, most: usize) -> Result<usize, Failed>
        requires sound { S.Stream.has_failed source.old ≡ false }
        requires unready { self.old.ready ≡ [] }
        requires some { 0 < most }
        requires room { length self.old.unread < 4096 }
        ensures piece { Fills (S.left source.old) (S.left source.new) self.old self.new most result }
        ensures failed { S.Stream.has_failed source.new ≡ is_err result }
    {
        if self.middle > 0 {
            self.bytes.copy_within(self.middle..self.end, 0);
            self.end -= self.middle;
            self.middle = 0;
            self.start = 0;
        }
        let end = most.min(ROOM - self.end) + self.end;
        let n = source.read(&mut self.bytes[self.end..end])?;
        self.end += n;
        Ok(n)
    }
}
