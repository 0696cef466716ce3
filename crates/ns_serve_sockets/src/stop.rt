//! A server that stops when something from outside says so, as the end of its standard input.
ghost use Rattle.std.specs.Prelude.{◌≡◌};

use ns_log::{Log, error, info};
use ns_serve_parts::ServeFault;
use std::io::{ErrorKind, Read};
use std::sync::atomic::{AtomicBool, Ordering};
use std::sync::{Arc, Wait};
use std::thread;
use std::thread::Threads;

// How many bytes are read at once.
const BLOCK: usize = 512;

/// What stops a server from outside.
pub trait Stop {
    /// Comes back when the server is to stop.
    fn wait(&self);
}

/// The end of an input.
#[derive(Drop)]
pub struct EndOfInput<I> {
    input: I,
}

impl<I> EndOfInput<I> {
    /// The end of this input.
    pub fn new(input: I) -> EndOfInput<I>
        ensures { result.input ≡ input }
    {
        EndOfInput { input }
    }
}

impl<I: Input + Wait> Stop for EndOfInput<I> {
    // Reads to the end, or until a read fails. What is there is of no use.
    fn wait(&self) {
        let mut reader = self.input.reader();
        let mut buf = [0; BLOCK];
        for _turn in self.input.forever() {
            match reader.read(&mut buf) {
                Ok(0) => return,
                Ok(_) => {}
                Err(error) if error.kind() == ErrorKind::Interrupted => {}
                Err(_) => return,
            }
        }
    }
}

/// Starts a thread that sets the mark when the server is to stop. Nobody waits for its end: a server that stops before leaves it behind.
pub(crate) fn mark_stop<R: Threads + Log, S: Stop + Send + Drop + 'static>(
    rt: &R,
    mark: Arc<AtomicBool>,
    stop: S,
) -> Result<(), ServeFault> {
    let work = move || {
        stop.wait();
        mark.store(true, Ordering::SeqCst);
    };
    if thread::spawn(rt, work).is_err() {
        error!(rt; "no thread for the end of standard input");
        return Err(ServeFault::NoMemory);
    }
    info!(rt; "stops at the end of standard input");
    Ok(())
}
