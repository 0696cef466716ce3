//! What gives bytes and what takes them.

ghost use Rattle.std.specs.Prelude.{◌≡◌, ℕ, List, Bool, Option, ◌<◌, ◌≤◌, length, IfOk, false, is_err};
ghost use Rattle.std.specs.Io.{ReadsAtMost};
ghost use Rattle.std.specs.Io.KnownBytes.{ReadConsumes, WriteAppends};

/// A read or a write failed.
#[derive(Clone, Copy, Debug, PartialEq, Eq)]
pub struct Failed;

/// What may fail. It fails in a read or a write of its own and nowhere else, and is not read or written after that.
pub trait Stream {
    // Whether a read or a write of it has failed.
    ghost has_failed: { Self → Bool };

    /// Whether a read or a write of it has failed.
    fn failed(&self) -> bool
        ensures { result ≡ has_failed self.now };
}

/// What gives bytes.
pub trait Source: Stream {
    // The bytes that reads will give from here on, where it tells them.
    ghost left: { Self → Option (List ℕ) };

    /// Fills the front of a buffer, which may not be empty, and says how many bytes came: 0 at the end of the bytes alone.
    fn read(&mut self, buf: &mut [u8]) -> Result<usize, Failed>
        requires sound { Self.has_failed self.old ≡ false }
        requires room { 0 < length buf.old }
        ensures bound { ReadsAtMost result buf.new }
        ensures bytes { ReadConsumes (left self.old) (left self.new) result buf.new }
        ensures failed { Self.has_failed self.new ≡ is_err result };
}

/// What takes bytes.
pub trait Sink: Stream {
    // The bytes that it has taken, where it tells them.
    ghost taken: { Self → Option (List ℕ) };

    /// Takes a front of some bytes, of which there is one at least, and says how many: at least one.
    fn write(&mut self, bytes: &[u8]) -> Result<usize, Failed>
        requires sound { Self.has_failed self.old ≡ false }
        requires some { 0 < length bytes.now }
        ensures moved { IfOk result (λ n. 0 < n) }
        ensures bound { IfOk result (λ n. n ≤ length bytes.now) }
        ensures bytes { WriteAppends (taken self.old) (taken self.new) result bytes.now }
        ensures failed { Self.has_failed self.new ≡ is_err result };
}
