//! Connections to the join server, each with one limit for connecting and the whole exchange, and read as plain responses.
ghost use Rattle.std.specs.Prelude.{◌≡◌, ◌+◌, ◌<◌, ◌≤◌, ◌↔◌, None, IsNone, IfSome};
ghost use Rattle.std.specs.Duration.{as_nanos};
ghost use Rattle.std.specs.Io.{ReadsAtMost, WritesAtMost};

use ns_outside::Connections;
use ns_responses::Responses;
use ns_serve_parts::Times;
use ns_types::{Failed, Sink, Source, Stream};
use std::io;
use std::io::{ErrorKind, Read, Write};
use std::net::{Net, SocketAddr, TcpListener, TcpStream};
use std::time::{Clock, Duration, Instant};

// How long connecting to the join server and the whole exchange take at most. A Join-Accept is of use within the 5 s of its receive
// window.
const EXCHANGE_MS: u64 = 4000;

/// Connections to the join server.
#[derive(Drop)]
pub struct ToJoinServer<'a, R> {
    rt: &'a R,
    addr: SocketAddr,
    // How long connecting and the exchange take together at most.
    limit: Duration,
    // How long they took.
    times: &'a Times,
}

impl<'a, R> ToJoinServer<'a, R> {
    /// Connections to this address, each for 4 s at most. How long each took is counted.
    pub fn new(rt: &'a R, addr: SocketAddr, times: &'a Times) -> ToJoinServer<'a, R>
        ensures addr { result.addr ≡ addr }
        ensures limit { as_nanos result.limit ≡ 4_000_000_000 }
    {
        ToJoinServer {
            rt,
            addr,
            limit: Duration::from_millis(EXCHANGE_MS),
            times,
        }
    }
}

/// A stream that fails once its time is up. How long it was open is counted at its end.
pub struct Within<'a, R: Clock> {
    rt: &'a R,
    stream: TcpStream,
    start: Instant,
    limit: Duration,
    failed: bool,
    times: &'a Times,
}

impl<'a, R: Clock> Drop for Within<'a, R> {
    fn drop(self) {
        if let Ok(elapsed) = self.start.elapsed(self.rt) {
            self.times
                .add(u64::try_from(elapsed.as_millis()).unwrap_or(u64::MAX));
        }
        let Within {
            rt: _,
            stream: _,
            start: _,
            limit: _,
            failed: _,
            times: _,
        } = self;
    }
}

impl<'a, R: Net<Listener = TcpListener, Stream = TcpStream> + Clock> Connections<R>
    for ToJoinServer<'a, R> {
    type S = Responses<Within<'a, R>>;

    // It opened a connection with the limit of each.
    ghost has_opened = { λ to s. s.stream.limit ≡ to.limit };

    fn open(&self, _rt: &R) -> Option<Responses<Within<'a, R>>> {
        let start = Instant::now(self.rt).ok()?;
        let stream = TcpStream::connect_timeout(self.rt, &self.addr, self.limit).ok()?;
        Some(Responses::new(Within {
            rt: self.rt,
            stream,
            start,
            limit: self.limit,
            failed: false,
            times: self.times,
        }))
    }
}

// What is left of a time, if anything is.
fn left_of(limit: Duration, elapsed: Duration) -> Option<Duration>
    ensures none { IsNone result ↔ (as_nanos limit ≤ as_nanos elapsed) }
    ensures left { IfSome result (λ d. as_nanos d + as_nanos elapsed ≡ as_nanos limit) }
{
    let left = limit.saturating_sub(elapsed);
    if left.is_zero() { None } else { Some(left) }
}

impl<'a, R: Clock> Within<'a, R> {
    // What is left of the time for the exchange, if anything is.
    fn left(&self) -> Option<Duration> {
        left_of(self.limit, self.start.elapsed(self.rt).ok()?)
    }

    fn read_some(&self, buf: &mut [u8]) -> io::Result<usize>
        ensures { ReadsAtMost result buf.new }
    {
        let Some(left) = self.left() else {
            return Err(io::Error::from(ErrorKind::TimedOut));
        };
        self.stream.set_read_timeout(Some(left))?;
        (&self.stream).read(buf)
    }

    fn write_some(&self, bytes: &[u8]) -> io::Result<usize>
        ensures { WritesAtMost result bytes.now }
    {
        let Some(left) = self.left() else {
            return Err(io::Error::from(ErrorKind::TimedOut));
        };
        self.stream.set_write_timeout(Some(left))?;
        (&self.stream).write(bytes)
    }
}

impl<'a, R: Clock> Stream for Within<'a, R> {
    ghost has_failed = { λ s. s.failed };

    fn failed(&self) -> bool {
        self.failed
    }
}

impl<'a, R: Clock> Source for Within<'a, R> {
    ghost left = { λ _. None };

    fn read(&mut self, buf: &mut [u8]) -> Result<usize, Failed> {
        match self.read_some(buf) {
            Ok(n) => Ok(n),
            Err(_) => {
                self.failed = true;
                Err(Failed)
            }
        }
    }
}

impl<'a, R: Clock> Sink for Within<'a, R> {
    ghost taken = { λ _. None };

    fn write(&mut self, bytes: &[u8]) -> Result<usize, Failed> {
        match self.write_some(bytes) {
            Ok(n) if n > 0 => Ok(n),
            _ => {
                self.failed = true;
                Err(Failed)
            }
        }
    }
}
