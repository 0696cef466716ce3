//! What is to be served, and why serving ended.
ghost use Rattle.std.specs.Prelude.{◌≡◌};
ghost use Rattle.ns_serve_parts.specs.declared.options.ServeFault.TheVariants as serve;
ghost use Rattle.ns_serve_parts.specs.Ends.{serve_fault};

use ns_exchange::HostName;
use ns_output::Output;
use ns_outside::WorkerFault;
use std::alloc::AllocError;
use std::net::SocketAddr;
use thiserror::Error;

/// What to serve.
#[derive(Clone, Copy)]
pub struct ServeOptions<'a> {
    /// The address of the join server.
    pub join: SocketAddr,
    /// The host that requests to it name.
    pub host: HostName<'a>,
    /// The address at which gateways are heard that speak this server's own datagrams, if one is given.
    pub listen: Option<SocketAddr>,
    /// The address at which packet forwarders are heard, if one is given. Where neither is, 127.0.0.1:1700 hears own datagrams.
    pub forwarders: Option<SocketAddr>,
    /// The power of the downlinks that forwarders send, in dBm.
    pub power: u8,
    /// The address at which the status is told over HTTP, if one is given.
    pub status: Option<SocketAddr>,
    /// The name under which the status is asked for, where that is neither an address nor `localhost`.
    pub status_host: Option<&'a str>,
    /// How many workers hear them, 1 to 16. Where both addresses are given, at least 2: every second one hears forwarders.
    pub workers: usize,
    /// How many workers ask the join server, 1 to 16.
    pub join_workers: usize,
    /// How long a window stays open, in milliseconds. The copies of a Join-Request are waited for as long, but 1 s at most.
    pub window_ms: u32,
    /// After how many datagrams the server stops, if it does.
    pub stop_after: Option<u32>,
    /// Whether the server stops at the end of the input that it is given.
    pub stop_at_end: bool,
    /// After how many further entries a shard is trimmed, if at all: at least a quarter of how many devices there are.
    pub trim: Option<u32>,
    /// How uplinks are written.
    pub output: Output,
    /// Whether joins and acknowledgements are written too.
    pub events: bool,
    /// Whether the roster from which the next run begins is written at the end.
    pub closing: bool,
}

/// Why serving ended.
#[derive(Clone, Copy, Debug, PartialEq, Eq, Error)]
pub enum ServeFault {
    /// A growth was refused, or a thread could not be made.
    #[error("no memory")]
    NoMemory,
    /// The socket, the output, the record or a clock failed.
    #[error("io")]
    Io,
}

impl<'a> ServeOptions<'a> {
    /// The address at which gateways are heard that speak this server's own datagrams, if they are: 127.0.0.1:1700 where none is given.
    pub fn own_addr(&self) -> Option<SocketAddr> {
        if self.listen.is_none() && self.forwarders.is_none() {
            Some(SocketAddr::from(([127, 0, 0, 1], 1700)))
        } else {
            self.listen
        }
    }
}

impl From<WorkerFault> for ServeFault {
    ghost from_gives = { λ fault e. e ≡ serve_fault fault };

    fn from(fault: WorkerFault) -> ServeFault {
        match fault {
            WorkerFault::NoMemory => ServeFault::NoMemory,
            WorkerFault::SourceFailed | WorkerFault::SinkFailed => ServeFault::Io,
        }
    }
}

impl From<AllocError> for ServeFault {
    ghost from_gives = { λ _ e. e ≡ serve.NoMemory };

    fn from(_error: AllocError) -> ServeFault {
        ServeFault::NoMemory
    }
}
