//! A stream over one of std's.

ghost use Rattle.std.specs.Prelude.{◌≡◌, false};

use crate::stream::{Failed, Sink, Source, Stream};
use std::io::{Read, Write};

/// A stream over std's `Read`, `Write` or both, which waits as that does. Every error of it is a failure, and so is a
/// write that takes no byte.
#[derive(Drop)]
pub struct OverStd<S> {
    stream: S,
    failed: bool,
}

impl<S> OverStd<S> {
    /// A stream that has not failed.
    pub fn new(stream: S) -> Self
        ensures stream { result.stream ≡ stream }
        ensures sound { ⟦<OverStd<S> as Stream>⟧.has_failed result ≡ false }
    {
        OverStd {
            stream,
            failed: false,
        }
    }

    /// The stream under it, as to flush it.
    pub fn into_inner(self) -> S
        ensures { result ≡ self.stream }
    {
        let OverStd { stream, failed: _ } = self;
        stream
    }
}

impl<S> Stream for OverStd<S> {
    ghost has_failed = { λ s. s.failed };

    fn failed(&self) -> bool {
        self.failed
    }
}

impl<S: Read> Source for OverStd<S> {
    ghost left = { λ s. S.remaining s.stream };

    fn read(&mut self, buf: &mut [u8]) -> Result<usize, Failed> {
        match self.stream.read(buf) {
            Ok(n) => Ok(n),
            Err(_) => {
                self.failed = true;
                Err(Failed)
            }
        }
    }
}

impl<S: Write> Sink for OverStd<S> {
    ghost taken = { λ s. S.contents s.stream };

    fn write(&mut self, bytes: &[u8]) -> Result<usize, Failed> {
        match self.stream.write(bytes) {
            Ok(n) if n > 0 => Ok(n),
            _ => {
                self.failed = true;
                Err(Failed)
            }
        }
    }
}
