//! A runtime whose streams are in memory, whose clock stands, and whose network refuses. Files and memory are the system's.

use std::alloc::{Allocator, Global};
use std::cell::RefCell;
use std::fmt::Display;
use std::fs::{File, Metadata, OpenOptions};
use std::io;
use std::io::{BufRead, ErrorKind, Lines, Write};
use std::net::{Net, SocketAddr, TcpListener, TcpStream, UdpSocket};
use std::rt::Files;
use std::time::{Clock, Duration};

/// What the clock says of the time since its start, in milliseconds.
pub const SINCE_START: u64 = 7000;

/// What the clock says of the time of day, in milliseconds: 2026-11-24T09:30:00.125Z.
pub const SINCE_1970: u64 = 1_795_512_600_125;

/// The limit by which to connect times out, in milliseconds.
pub const LIMIT: u64 = 3000;

/// The runtime.
#[derive(Drop)]
pub struct StandIn<'a> {
    rt: HostRuntime,
    input: &'a [u8],
    printed: RefCell<Vec<u8>>,
    told: RefCell<Vec<u8>>,
}

impl<'a> StandIn<'a> {
    /// One with these bytes on standard input.
    pub fn new(rt: HostRuntime, input: &'a [u8]) -> StandIn<'a> {
        StandIn {
            rt,
            input,
            printed: RefCell::new(Vec::new(rt.alloc())),
            told: RefCell::new(Vec::new(rt.alloc())),
        }
    }

    /// Whether this is what was written to standard output.
    pub fn has_printed(&self, text: &str) -> bool {
        holds(&self.printed, text)
    }

    /// Whether this is what was written to standard error.
    pub fn has_told(&self, text: &str) -> bool {
        holds(&self.told, text)
    }
}

// Whether this is what stands in a stream.
fn holds(stream: &RefCell<Vec<u8>>, text: &str) -> bool {
    match stream.try_borrow() {
        Ok(bytes) => bytes.as_slice() == text.as_bytes(),
        Err(_) => false,
    }
}

// Puts a text and what ends it into a stream.
fn put<D: Display + Drop>(stream: &RefCell<Vec<u8>>, text: D, end: &str) -> io::Result<()> {
    match stream.try_borrow_mut() {
        Ok(mut bytes) => {
            bytes.write_fmt(text)?;
            bytes.write_fmt(end)
        }
        Err(_) => refusal(ErrorKind::ResourceBusy),
    }
}

fn refusal<T>(kind: ErrorKind) -> io::Result<T> {
    Err(io::Error::from(kind))
}

impl<'a> Alloc for StandIn<'a> {
    type A = Global;

    fn alloc(&self) -> Global {
        self.rt.alloc()
    }
}

impl<'a> Input for StandIn<'a> {
    type Reader = &'a [u8];

    fn read_line<A: Allocator + Clone>(&self, _buf: &mut String<A>) -> io::Result<usize> {
        Err(io::Error::from(ErrorKind::Unsupported))
    }

    fn lines<A: Allocator>(&self, alloc: A) -> Lines<&'a [u8], A> {
        self.input.lines(alloc)
    }

    fn reader(&self) -> &'a [u8] {
        self.input
    }
}

impl<'a> Print for StandIn<'a> {
    fn print<D: Display + Drop>(&self, value: D) -> io::Result<()> {
        put(&self.printed, value, "")
    }

    fn println<D: Display + Drop>(&self, value: D) -> io::Result<()> {
        put(&self.printed, value, "\n")
    }

    fn write_all(&self, bytes: &[u8]) -> io::Result<()> {
        match self.printed.try_borrow_mut() {
            Ok(mut printed) => printed.write_all(bytes),
            Err(_) => refusal(ErrorKind::ResourceBusy),
        }
    }
}

impl<'a> Eprint for StandIn<'a> {
    fn eprint<D: Display + Drop>(&self, value: D) -> io::Result<()> {
        put(&self.told, value, "")
    }

    fn eprintln<D: Display + Drop>(&self, value: D) -> io::Result<()> {
        put(&self.told, value, "\n")
    }
}

impl<'a> Clock for StandIn<'a> {
    fn monotonic(&self) -> io::Result<Duration> {
        Ok(Duration::from_millis(SINCE_START))
    }

    fn since_1970(&self) -> io::Result<Duration> {
        Ok(Duration::from_millis(SINCE_1970))
    }
}

// Each call is refused in a way of its own.
impl<'a> Net for StandIn<'a> {
    type Stream = TcpStream;

    type Listener = TcpListener;

    fn bind(&self, _addr: SocketAddr) -> io::Result<TcpListener> {
        refusal(ErrorKind::AddrInUse)
    }

    fn connect(&self, _addr: SocketAddr) -> io::Result<TcpStream> {
        refusal(ErrorKind::ConnectionRefused)
    }

    fn connect_timeout(&self, _addr: SocketAddr, timeout: Duration) -> io::Result<TcpStream> {
        refusal(if timeout == Duration::from_millis(LIMIT) {
            ErrorKind::TimedOut
        } else {
            ErrorKind::InvalidInput
        })
    }

    fn bind_udp(&self, _addr: SocketAddr) -> io::Result<UdpSocket> {
        refusal(ErrorKind::AddrNotAvailable)
    }

    fn lookup_host(&self, _host: &str, _port: u16, _found: &mut [SocketAddr]) -> io::Result<usize> {
        Err(io::Error::from(ErrorKind::NotFound))
    }
}

impl<'a> Files for StandIn<'a> {
    type File = File;

    type Dir = <HostRuntime as Files>::Dir;

    fn open_file(&self, how: &OpenOptions, path: &str) -> io::Result<File> {
        self.rt.open_file(how, path)
    }

    fn open_dir(&self, path: &str) -> io::Result<<HostRuntime as Files>::Dir> {
        self.rt.open_dir(path)
    }

    fn metadata(&self, path: &str) -> io::Result<Metadata> {
        self.rt.metadata(path)
    }

    fn symlink_metadata(&self, path: &str) -> io::Result<Metadata> {
        self.rt.symlink_metadata(path)
    }

    fn copy(&self, from: &str, to: &str) -> io::Result<u64> {
        self.rt.copy(from, to)
    }

    fn rename(&self, from: &str, to: &str) -> io::Result<()> {
        self.rt.rename(from, to)
    }

    fn remove_file(&self, path: &str) -> io::Result<()> {
        self.rt.remove_file(path)
    }

    fn create_dir(&self, path: &str) -> io::Result<()> {
        self.rt.create_dir(path)
    }

    fn remove_dir(&self, path: &str) -> io::Result<()> {
        self.rt.remove_dir(path)
    }

    fn remove_dir_all<B: Allocator>(&self, alloc: B, path: &str) -> io::Result<()> {
        self.rt.remove_dir_all(alloc, path)
    }
}
