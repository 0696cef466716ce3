//! What a server does before its threads start.

use crate::after::AfterRecord;
use crate::fault::no_memory;
use crate::stop::{Stop, mark_stop};
use ns_log::{Log, error, info};
use ns_record_files::{RecordFiles, Recorder};
use ns_roster::Roster;
use ns_serve_parts::{Made, ServeFault, ServeOptions};
use ns_serve_state::{State, Status, SystemFiles};
use ns_serve_streams::Output;
use ns_types::Sink;
use std::alloc::Global;
use std::io;
use std::net::{Net, SocketAddr, TcpListener, TcpStream, UdpSocket};
use std::sync::Wait;
use std::thread::Threads;
use std::time::{Clock, Duration};

// How long a gateway worker waits for a datagram before it looks whether the server stops.
const LISTEN_MS: u64 = 100;

// A socket bound to an address, whose receives wait a while, and its address.
fn bind<R: Net>(rt: &R, addr: SocketAddr) -> io::Result<(UdpSocket, SocketAddr)> {
    let socket = UdpSocket::bind(rt, addr)?;
    socket.set_read_timeout(Some(Duration::from_millis(LISTEN_MS)))?;
    let bound = socket.local_addr()?;
    Ok((socket, bound))
}

// The socket at this address, if one is given, and the address that it has.
fn listen<R: Net + Log>(
    rt: &R,
    addr: Option<SocketAddr>,
) -> Result<Option<(UdpSocket, SocketAddr)>, ServeFault> {
    let Some(addr) = addr else {
        return Ok(None);
    };
    match bind(rt, addr) {
        Ok(bound) => Ok(Some(bound)),
        Err(error) => {
            error!(rt; "cannot listen at {addr}: {error}");
            Err(ServeFault::Io)
        }
    }
}

// Whether there are as many workers as sockets by which gateways are to be heard.
fn suffice<R: Log>(rt: &R, options: &ServeOptions<'_>, own: Option<SocketAddr>) -> bool {
    let suffice = own.is_none() || options.forwarders.is_none() || options.workers >= 2;
    if !suffice {
        error!(rt; "one worker does not hear both this server's own datagrams and forwarders");
    }
    suffice
}

// Where gateways are heard, and where the status is told.
#[derive(Drop)]
struct Opened {
    own: Option<(UdpSocket, SocketAddr)>,
    forwarders: Option<(UdpSocket, SocketAddr)>,
    status: Option<Status>,
}

// Opens what the options ask for.
fn open_all<R: Net<Listener = TcpListener, Stream = TcpStream> + Clock + Log>(
    rt: &R,
    alloc: Global,
    roster: &Roster,
    options: &ServeOptions<'_>,
) -> Result<Opened, ServeFault> {
    let own_addr = options.own_addr();
    if !suffice(rt, options, own_addr) {
        return Err(ServeFault::Io);
    }
    let own = listen(rt, own_addr)?;
    let forwarders = listen(rt, options.forwarders)?;
    Ok(Opened {
        own,
        forwarders,
        status: Status::open(rt, alloc, roster, options.status, options.status_host)?,
    })
}

/// Opens the sockets by which gateways are heard and where the status is told, as the options ask, and makes what all threads share. `Io`
/// where a socket could not be opened, or one worker was to hear two; `NoMemory` where a growth was refused. Each is logged.
pub fn begin<R: Net<Listener = TcpListener, Stream = TcpStream> + Clock + Log>(
    rt: &R,
    alloc: Global,
    roster: &Roster,
    options: &ServeOptions<'_>,
    made: Made,
    record: Option<Recorder<RecordFiles>>,
    system: SystemFiles,
) -> Result<State, ServeFault> {
    let Opened {
        own,
        forwarders,
        status,
    } = open_all(rt, alloc, roster, options)?;
    let state = State::new(
        rt, alloc, own, forwarders, roster, options, made, record, status, system,
    );
    if let Err(why) = &state {
        error!(rt; "what all threads share: {why}");
    }
    state
}

// Logs and writes the address of a socket behind a word, where there is one.
fn put_heard<R: Log, W: Sink, S>(
    rt: &R,
    alloc: Global,
    output: &mut Output<W>,
    word: &str,
    heard: &Option<(S, SocketAddr)>,
) -> Result<(), ServeFault> {
    let Some((_, addr)) = heard else {
        return Ok(());
    };
    info!(rt; "{word} {addr}");
    output.put_address(alloc, word, *addr)
}

// The output, once it has a line for each address at which gateways are heard.
fn first_lines<R: Log, W: Sink + Drop>(
    rt: &R,
    alloc: Global,
    state: &State,
    writer: W,
) -> Result<Output<W>, ServeFault> {
    let mut output = Output::new(writer);
    put_heard(rt, alloc, &mut output, "listening", &state.own)?;
    put_heard(rt, alloc, &mut output, "forwarders", &state.forwarders)?;
    Ok(output)
}

/// The output over a writer that waits for the record, once it has a line for each address at which gateways are heard. `Io` or `NoMemory`
/// where that could not be written, which is logged.
pub fn begun_output<'a, R: Wait + Log, W: Sink + Drop>(
    rt: &'a R,
    alloc: Global,
    state: &'a State,
    writer: W,
) -> Result<Output<AfterRecord<'a, R, W>>, ServeFault> {
    let output = first_lines(rt, alloc, state, AfterRecord::new(rt, state, writer));
    if let Err(why) = &output {
        error!(rt; "the first line: {why}");
    }
    output
}

/// Starts a thread that stops the server when `stop` says so, where the options ask for it. `NoMemory` where it could not be made, which is
/// logged.
pub fn watch_stop<R: Threads + Log, S: Stop + Send + Drop + 'static>(
    rt: &R,
    state: &State,
    options: &ServeOptions<'_>,
    stop: S,
) -> Result<(), ServeFault> {
    if !options.stop_at_end {
        return Ok(());
    }
    let Ok(mark) = state.ended.clone() else {
        return Err(no_memory(rt, "the end of standard input"));
    };
    mark_stop(rt, mark, stop)
}

/// Logs what is served, and after how many further entries a shard is trimmed, where it is.
pub fn log_start<R: Log>(
    rt: &R,
    roster: &Roster,
    options: &ServeOptions<'_>,
    entries_between: Option<u64>,
) {
    info!(rt; "devices {} join server {} host {} workers {} join workers {} window {} ms",
        roster.devices().len(), options.join, options.host.as_str(), options.workers, options.join_workers, options.window_ms);
    if let Some(count) = options.stop_after {
        info!(rt; "stops after {count} datagrams");
    }
    if let Some(count) = entries_between {
        info!(rt; "trims a shard after {count} entries");
    }
}
