//! A writer that is waited for.
ghost use Rattle.std.specs.Prelude.{◌≡◌};

use ns_log::{Log, error};
use std::io::{ErrorKind, Write};
use std::sync::Wait;
use std::time::{Clock, Duration};
use std::{io, thread};

// How long a write that would block is waited out before it is tried again.
const NAP_MS: u64 = 10;

/// The writer of `up` lines: a write that would block, or that a signal interrupts, is tried again until it is done. Any other error is
/// logged as the end of standard output.
#[derive(Drop)]
pub struct WaitingWriter<'a, R, W> {
    rt: &'a R,
    writer: W,
}

impl<'a, R, W> WaitingWriter<'a, R, W> {
    /// This writer, waited for.
    pub fn new(rt: &'a R, writer: W) -> WaitingWriter<'a, R, W>
        ensures { result.writer ≡ writer }
    {
        WaitingWriter { rt, writer }
    }
}

// Logs the end of standard output.
fn log_end<R: Log>(rt: &R, error: &io::Error) {
    error!(rt; "standard output: {error}");
}

impl<'a, R: Wait + Clock + Log, W: Write> Write for WaitingWriter<'a, R, W> {
    ghost contents = { λ s. W.contents s.writer };

    fn write(&mut self, buf: &[u8]) -> io::Result<usize> {
        for _turn in self.rt.forever() {
            match self.writer.write(buf) {
                Ok(n) => return Ok(n),
                Err(error) => match error.kind() {
                    ErrorKind::WouldBlock => {
                        thread::sleep(self.rt, Duration::from_millis(NAP_MS));
                    }
                    ErrorKind::Interrupted => {}
                    _ => {
                        log_end(self.rt, &error);
                        return Err(error);
                    }
                },
            }
        }
        unreachable!()
    }

    fn flush(&mut self) -> io::Result<()> {
        self.writer.flush()
    }
}
