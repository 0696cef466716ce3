//! A runtime whose clock stands until a test sets it, and which logs into memory.

use ns_device::logged::{Kept, Lines};
use ns_log::{Level, Log};
use std::alloc::{AllocError, Global};
use std::fmt::Display;
use std::io;
use std::net::{Net, SocketAddr, TcpListener, TcpStream};
use std::sync::Wait;
use std::sync::atomic::{AtomicU64, Ordering};
use std::time::{Clock, Duration};

/// What the wall clock tells always, in milliseconds since 1970: 2025-11-24 20:43:20.123.
pub const WALL_MS: u64 = 1_764_017_000_123;

/// The runtime of all tests, over the system's.
#[derive(Drop)]
pub struct Standing<'a, R: Wait> {
    rt: &'a R,
    log: Lines<'a, R>,
    // What the clock tells next, in microseconds.
    us: AtomicU64,
    // How much later it is each time that it is read, in microseconds.
    step: AtomicU64,
}

impl<'a, R: Wait> Standing<'a, R> {
    /// Its clock tells 1 s, and it has logged nothing.
    pub fn new(rt: &'a R, alloc: Global) -> Result<Standing<'a, R>, AllocError> {
        Ok(Standing {
            rt,
            log: Lines::new(rt, alloc, Kept::All, 4096)?,
            us: AtomicU64::new(1_000_000),
            step: AtomicU64::new(0),
        })
    }

    /// The runtime that it stands over.
    pub fn host(&self) -> &'a R {
        self.rt
    }

    /// The clock stands at so long after it stood first, in milliseconds.
    pub fn stand_at(&self, ms: u64) {
        let us = ms.saturating_add(1000).saturating_mul(1000);
        self.us.store(us, Ordering::SeqCst);
    }

    /// The clock goes on by so many microseconds each time that it is read.
    pub fn step_by(&self, us: u64) {
        self.step.store(us, Ordering::SeqCst);
    }

    /// What was logged.
    pub fn into_lines(self) -> Vec<u8> {
        let Standing {
            rt: _,
            log,
            us: _,
            step: _,
        } = self;
        log.into_lines()
    }
}

impl<'a, R: Wait> Wait for Standing<'a, R> {}

impl<'a, R: Wait + Clock> Clock for Standing<'a, R> {
    fn monotonic(&self) -> io::Result<Duration> {
        let step = self.step.load(Ordering::SeqCst);
        Ok(Duration::from_micros(self.us.fetch_add(step, Ordering::SeqCst)))
    }

    fn since_1970(&self) -> io::Result<Duration> {
        Ok(Duration::from_millis(WALL_MS))
    }

    fn sleep(&self, _duration: Duration) {
        self.rt.sleep(Duration::from_millis(1))
    }
}

impl<'a, R: Wait + Net<Stream = TcpStream, Listener = TcpListener>> Net for Standing<'a, R> {
    type Stream = TcpStream;

    type Listener = TcpListener;

    fn bind(&self, addr: SocketAddr) -> io::Result<TcpListener> {
        self.rt.bind(addr)
    }

    fn connect(&self, addr: SocketAddr) -> io::Result<TcpStream> {
        self.rt.connect(addr)
    }

    // Connecting takes as long as it may.
    fn connect_timeout(&self, addr: SocketAddr, timeout: Duration) -> io::Result<TcpStream> {
        let us = u64::try_from(timeout.as_micros()).unwrap_or(u64::MAX);
        self.us.fetch_add(us, Ordering::SeqCst);
        self.rt.connect_timeout(addr, timeout)
    }
}

impl<'a, R: Wait> Log for Standing<'a, R> {
    fn line<D: Display + Drop>(&self, level: Level, module: &str, text: D) {
        self.log.line(level, module, text);
    }
}
