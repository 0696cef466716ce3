//! A runtime over a logger, with a clock that a test may hold, and with short sleeps.

use crate::parties::network::{nap, naps};
use ns_log::{Level, Log};
use std::fmt::Display;
use std::io;
use std::net::{Net, SocketAddr, UdpSocket};
use std::sync::Wait;
use std::sync::atomic::{AtomicU64, Ordering};
use std::thread::Threads;
use std::time::{Clock, Duration};

/// The time at which a clock stands, in milliseconds, or 0 where it goes on, and how often it was read.
#[derive(Drop)]
pub struct Held {
    pub ms: AtomicU64,
    pub reads: AtomicU64,
}

// How often the clock of a server is read before it has looked at all that came.
const LOOKS: u64 = 20;

impl Held {
    /// The clock stands at this time for a second, and longer where the threads of the server have not read it so often by then.
    pub fn stand<R: Clock>(&self, rt: &R, ms: u64) -> Option<()> {
        self.ms.store(ms, Ordering::SeqCst);
        let before = self.reads.load(Ordering::SeqCst);
        naps(rt, 100);
        for _ in 0..1_000 {
            if self.reads.load(Ordering::SeqCst).wrapping_sub(before) >= LOOKS {
                return Some(());
            }
            nap(rt);
        }
        None
    }
}

/// A runtime that logs by a logger of its own. Its clock is the runtime's, or stands at a time.
#[derive(Drop)]
pub struct Around<'a, R, L> {
    pub rt: &'a R,
    pub log: &'a L,
    pub held: &'a Held,
}

impl<'a, R: Wait, L> Wait for Around<'a, R, L> {}

impl<'a, R: Threads, L> Threads for Around<'a, R, L> {}

impl<'a, R: Clock, L> Clock for Around<'a, R, L> {
    fn monotonic(&self) -> io::Result<Duration> {
        self.held.reads.fetch_add(1, Ordering::SeqCst);
        match self.held.ms.load(Ordering::SeqCst) {
            0 => self.rt.monotonic(),
            ms => Ok(Duration::from_millis(ms)),
        }
    }

    fn since_1970(&self) -> io::Result<Duration> {
        self.rt.since_1970()
    }

    // A sleep ends after 10 ms at most: who sleeps looks again while a worker still waits for its socket.
    fn sleep(&self, duration: Duration) {
        self.rt.sleep(duration.min(Duration::from_millis(10)))
    }
}

impl<'a, R: Net, L> Net for Around<'a, R, L> {
    type Stream = R::Stream;

    type Listener = R::Listener;

    fn bind(&self, addr: SocketAddr) -> io::Result<R::Listener> {
        self.rt.bind(addr)
    }

    fn connect(&self, addr: SocketAddr) -> io::Result<R::Stream> {
        self.rt.connect(addr)
    }

    fn connect_timeout(&self, addr: SocketAddr, timeout: Duration) -> io::Result<R::Stream> {
        self.rt.connect_timeout(addr, timeout)
    }

    fn bind_udp(&self, addr: SocketAddr) -> io::Result<UdpSocket> {
        self.rt.bind_udp(addr)
    }
}

impl<'a, R, L: Log> Log for Around<'a, R, L> {
    fn line<D: Display + Drop>(&self, level: Level, module: &str, text: D) {
        self.log.line(level, module, text);
    }
}
