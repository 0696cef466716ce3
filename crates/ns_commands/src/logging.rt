//! Which log lines are written, and their form: each begins with the time of day.

ghost use Rattle.std.specs.Prelude.{◌≡◌, [], ◌∷◌, None, IfOk, IfSome, IsNone, IsSome, Some, pos, true};
ghost use Rattle.std.specs.Duration.{as_nanos};
ghost use Rattle.jiff_core.specs.Timestamp.{IsTimestampNanos};
ghost use Rattle.log.specs.Filter.{filter_rules, or_errors, parse_rules};
ghost use Rattle.ns_commands.specs.Times.{IsTimeText};

use arrayvec::ArrayString;
use jiff_core::Timestamp;
use jiff_fmt::temporal::DateTimePrinter;
use log::filter::{Builder, Filter};
use log::kv::Source;
use log::span::Spans;
use log::{LevelFilter, Log as Facade, Metadata, Record, log};
use ns_log::{Level, Log};
use std::alloc::{AllocError, Global};
use std::fmt::{Display, Formatter};
use std::net::{Net, SocketAddr, UdpSocket};
use std::sync::Wait;
use std::thread::Threads;
use std::time::{Clock, Duration};
use std::{fmt, io};

/// The environment variable that says which log lines are written.
pub const VARIABLE: &str = "RUST_LOG";

/// The filter that a text asks for, as `warn` or `ns_serve=debug`; without one it lets errors, warnings and information through.
pub fn filter_of(alloc: Global, text: Option<&str>) -> Result<Filter, AllocError>
    ensures usual { IsNone text.entry → IfOk result (λ f. filter_rules f ≡ (None, LevelFilter.Info) ∷ []) }
    ensures asked { IfSome text.entry (λ t. IfOk result (λ f. filter_rules f ≡ or_errors (parse_rules [] t.now))) }
{
    let builder = Builder::new(alloc);
    let builder = match text {
        Some(text) => builder.parse(text)?,
        None => builder.filter_level(LevelFilter::Info)?,
    };
    Ok(builder.build())
}

// How many places of a fraction of a second a time has.
const PLACES: u8 = 3;

/// The time this long after the beginning of 1970, in UTC and to the millisecond, as `2026-11-24T09:30:00.125Z`. None beyond the year 9999.
pub fn time_text(since_1970: Duration) -> Option<ArrayString<33>>
    ensures text { IfSome result (λ text. IsTimeText since_1970 text.bytes) }
    ensures there { IsTimestampNanos (pos (as_nanos since_1970)) → IsSome result }
{
    let timestamp = Timestamp::from_nanosecond(since_1970.as_nanos() as i128).ok()?;
    Some(
        DateTimePrinter::new()
            .precision(Some(PLACES))
            .timestamp_text(timestamp),
    )
}

// A record behind the time, as `[2026-11-24T09:30:00.125Z INFO  ns_serve] text`. The program's records have neither pairs nor spans.
#[derive(Drop)]
struct TimedLine<'a, 'r, D, K, S> {
    time: Option<ArrayString<33>>,
    record: &'a Record<'r, D, K, S>,
}

impl<'a, 'r, D: Display, K, S> Display for TimedLine<'a, 'r, D, K, S> {
    fn fmt<W: fmt::Write>(&self, f: &mut Formatter<W>) -> fmt::Result {
        let time = match &self.time {
            Some(time) => time.as_str(),
            None => "-",
        };
        let (level, target) = (self.record.level(), self.record.target());
        write!(f, "[{time} {level:<5} {target}] {}", self.record.args())
    }
}

/// Writes each record to the standard error of `R`, behind the time. A line of up to 1,024 bytes takes one write.
#[derive(Clone, Copy, Drop)]
pub struct Timed<R>(pub R);

impl<R: Eprint + Clock> Facade for Timed<R> {
    ghost enables = { λ _ _ _. Some true };

    ghost target_of = { λ _. Some [] };

    fn enabled(&self, _metadata: &Metadata<'_>) -> bool {
        true
    }

    fn log<D: Display, K: Source, S: Spans>(&self, record: &Record<'_, D, K, S>) {
        let time = match self.0.since_1970() {
            Ok(since_1970) => time_text(since_1970),
            Err(_) => None,
        };
        let _ = self.0.eprintln(TimedLine { time, record });
    }

    fn flush(&self) {}

    fn target(&self) -> &str {
        ""
    }
}

/// A runtime whose log lines go to a logger of the program's, each as a record with the line's module as target. It hands on what `serve`
/// asks of a runtime, UDP sockets and limits for connecting among it, which the handles of `log` leave out.
#[derive(Drop)]
pub struct Logging<R, L> {
    rt: R,
    log: L,
}

impl<R, L> Logging<R, L> {
    /// This runtime with this logger.
    pub fn new(rt: R, log: L) -> Logging<R, L>
        ensures runtime { result.rt ≡ rt }
        ensures logger { result.log ≡ log }
    {
        Logging { rt, log }
    }
}

impl<R: Wait, L> Wait for Logging<R, L> {}

impl<R: Threads, L> Threads for Logging<R, L> {}

impl<R: Clock, L> Clock for Logging<R, L> {
    fn monotonic(&self) -> io::Result<Duration> {
        self.rt.monotonic()
    }

    fn since_1970(&self) -> io::Result<Duration> {
        self.rt.since_1970()
    }

    fn sleep(&self, duration: Duration) {
        self.rt.sleep(duration)
    }
}

impl<R: Net, L> Net for Logging<R, L> {
    type Stream = R::Stream;

    type Listener = R::Listener;

    fn bind(&self, addr: SocketAddr) -> io::Result<R::Listener> {
        self.rt.bind(addr)
    }

    fn connect(&self, addr: SocketAddr) -> io::Result<R::Stream> {
        self.rt.connect(addr)
    }

    fn connect_timeout(&self, addr: SocketAddr, timeout: Duration) -> io::Result<R::Stream> {
        self.rt.connect_timeout(addr, timeout)
    }

    fn bind_udp(&self, addr: SocketAddr) -> io::Result<UdpSocket> {
        self.rt.bind_udp(addr)
    }

    fn lookup_host(&self, host: &str, port: u16, found: &mut [SocketAddr]) -> io::Result<usize> {
        self.rt.lookup_host(host, port, found)
    }
}

// The level of the facade.
fn level_of(level: Level) -> log::Level {
    match level {
        Level::Error => log::Level::Error,
        Level::Warn => log::Level::Warn,
        Level::Info => log::Level::Info,
        Level::Debug => log::Level::Debug,
    }
}

impl<R, L: Facade> Log for Logging<R, L> {
    fn line<D: Display + Drop>(&self, level: Level, module: &str, text: D) {
        log!(self.log; target: module, level_of(level), "{text}");
    }
}
