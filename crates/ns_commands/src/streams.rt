//! Standard input and output, whose failures are logged.

ghost use Rattle.std.specs.Prelude.{◌≡◌};

use ns_log::{Log, error};
use std::io;
use std::io::{Read, Write};

/// A stream of std's that logs why a read or a write failed, behind the stream's name. What is read and written is the stream's.
#[derive(Drop)]
pub struct Told<'a, L, S> {
    log: &'a L,
    name: &'a str,
    stream: S,
}

impl<'a, L, S> Told<'a, L, S> {
    /// This stream by this name.
    pub fn new(log: &'a L, name: &'a str, stream: S) -> Told<'a, L, S>
        ensures { result.stream ≡ stream }
    {
        Told { log, name, stream }
    }
}

impl<'a, L: Log, S: Read> Read for Told<'a, L, S> {
    ghost remaining = { λ s. S.remaining s.stream };

    fn read(&mut self, buf: &mut [u8]) -> io::Result<usize> {
        match self.stream.read(buf) {
            Ok(n) => Ok(n),
            Err(error) => {
                error!(self.log; "{}: {error}", self.name);
                Err(error)
            }
        }
    }
}

impl<'a, L: Log, S: Write> Write for Told<'a, L, S> {
    ghost contents = { λ s. S.contents s.stream };

    fn write(&mut self, buf: &[u8]) -> io::Result<usize> {
        match self.stream.write(buf) {
            Ok(n) => Ok(n),
            Err(error) => {
                error!(self.log; "{}: {error}", self.name);
                Err(error)
            }
        }
    }

    fn flush(&mut self) -> io::Result<()> {
        self.stream.flush()
    }
}
