//! What all threads of a server share.

ghost use Rattle.std.specs.Prelude.{◌≡◌, ◌+◌, ◌*◌, max, is_some, IfOk};
ghost use Rattle.ns_serve_state.specs.Hearing.{hears_forwarders};

use crate::clock::system_ms;
use crate::logged::Seldoms;
use crate::queue::AskQueue;
use crate::rest::Resting;
use crate::status::Status;
use crate::system::SystemFiles;
use ns_forwarder_socket::{Forwarders, Pending};
use ns_front::{Addresses, Lates, Peers};
use ns_output::Output;
use ns_record_files::{RecordFiles, Recorder};
use ns_roster::Roster;
use ns_serve_parts::{Askers, Counts, EventLines, Made, Reads, ServeFault, ServeOptions, keys};
use std::alloc::{AllocError, Global};
use std::collections::hash_map::RandomState;
use std::net::{SocketAddr, UdpSocket};
use std::sync::atomic::{AtomicBool, AtomicU64, Ordering};
use std::sync::{Arc, Mutex, Wait};
use std::time::{Clock, Instant};

// For how long a copy is late, in milliseconds: RX1's delay and 1 s, since a device repeats a frame at the earliest after RX2, which
// opens 1 s after RX1 (LoRaWAN L2 1.0.4, 3.3.2). A delay of 0 means 1 s.
fn late_ms(roster: &Roster) -> u64
    ensures { result ≡ (max roster.now.rx_delay 1 + 1) * 1000 }
{
    (u64::from(roster.rx_delay()).max(1) + 1) * 1000
}

// Room for the lines of joins and acknowledgements, where they are asked for.
fn notices(alloc: Global, events: bool) -> Option<Mutex<EventLines>>
    ensures { is_some result ≡ events }
{
    if events {
        Some(Mutex::new(EventLines::new(alloc)))
    } else {
        None
    }
}

// The parts of a state for which there may be no clock or no memory.
#[derive(Drop)]
struct Parts {
    start_ms: u64,
    forwarders: Option<(Forwarders, SocketAddr)>,
    ended: Arc<AtomicBool>,
    addresses: Mutex<Addresses>,
    lates: Lates,
    askers: Mutex<Askers>,
}

impl Parts {
    // The parts of a server that begins now.
    fn new<R: Clock>(
        rt: &R,
        alloc: Global,
        forwarders: Option<(UdpSocket, SocketAddr)>,
        roster: &Roster,
        power: u8,
    ) -> Result<Parts, ServeFault> {
        let (Ok(start), Ok(start_ms), Ok(keys)) = (Instant::now(rt), system_ms(rt), keys(rt)) else {
            return Err(ServeFault::Io);
        };
        let forwarders = heard(alloc, keys, start, power, forwarders)?;
        let Ok(ended) = Arc::new(alloc, AtomicBool::new(false)) else {
            return Err(ServeFault::NoMemory);
        };
        let (addresses, lates, askers) = tables(alloc, keys, roster)?;
        Ok(Parts {
            start_ms,
            forwarders,
            ended,
            addresses,
            lates,
            askers,
        })
    }
}

// The forwarders that are heard by a socket, if there is one.
fn heard(
    alloc: Global,
    keys: RandomState,
    start: Instant,
    power: u8,
    socket: Option<(UdpSocket, SocketAddr)>,
) -> Result<Option<(Forwarders, SocketAddr)>, AllocError> {
    let Some((socket, addr)) = socket else {
        return Ok(None);
    };
    Ok(Some((Forwarders::new(alloc, keys, socket, start, power)?, addr)))
}

// Where gateways were last heard, which frames are late, and by which gateways devices asked to join: nothing yet.
fn tables(
    alloc: Global,
    keys: RandomState,
    roster: &Roster,
) -> Result<(Mutex<Addresses>, Lates, Mutex<Askers>), AllocError> {
    let addresses = Mutex::new(Addresses::new(Peers::new(alloc, keys)?));
    let lates = Lates::new(alloc, late_ms(roster))?;
    let askers = Mutex::new(Askers::new(alloc, keys)?);
    Ok((addresses, lates, askers))
}

/// What all threads share.
pub struct State {
    pub alloc: Global,
    /// Where gateways are heard that speak this server's own datagrams, if they are.
    pub own: Option<(UdpSocket, SocketAddr)>,
    /// Where packet forwarders are heard, if they are.
    pub forwarders: Option<(Forwarders, SocketAddr)>,
    /// At which millisecond of the system's clock the server began.
    pub start_ms: u64,
    /// How long a window stays open, in milliseconds.
    pub window_ms: u32,
    /// How many datagrams came, and after how many the server stops.
    pub read: Reads,
    /// Whether a worker has met a fault.
    pub broken: AtomicBool,
    /// Whether the input has ended at whose end the server stops.
    pub ended: Arc<AtomicBool>,
    /// How many gateway workers are at work.
    pub gateways: AtomicU64,
    /// Those of them that rest.
    resting: Resting,
    /// Where gateways were last heard.
    pub addresses: Mutex<Addresses>,
    /// How often one of these changed or came. It is written under the lock of `addresses`.
    pub address_changes: AtomicU64,
    /// Frames whose windows were closed a while ago.
    pub lates: Lates,
    /// The tickets that wait for a join worker.
    pub asks: AskQueue,
    /// By which gateways devices asked to join.
    pub askers: Mutex<Askers>,
    /// How many entries each shard has, and with which replies they were made.
    pub made: Made,
    /// How often each thing happened.
    pub counts: Counts,
    /// What is logged once a minute at most.
    pub seldoms: Seldoms,
    /// How uplinks are written.
    pub uplinks: Output,
    /// The lines of joins and acknowledgements that wait to be written, where they are.
    pub notices: Option<Mutex<EventLines>>,
    /// What its calls are put down in, if they are.
    pub record: Option<Recorder<RecordFiles>>,
    /// What is told over HTTP, where it is.
    pub status: Option<Status>,
    /// What the system says of this process.
    pub system: SystemFiles,
}

// Proved here once, where a derived one is proved again by each crate that lets a state go.
impl Drop for State {
    fn drop(self) {
        let State {
            alloc: _,
            own: _,
            forwarders: _,
            start_ms: _,
            window_ms: _,
            read: _,
            broken: _,
            ended: _,
            gateways: _,
            resting: _,
            addresses: _,
            address_changes: _,
            lates: _,
            asks: _,
            askers: _,
            made: _,
            counts: _,
            seldoms: _,
            uplinks: _,
            notices: _,
            record: _,
            status: _,
            system: _,
        } = self;
    }
}

impl State {
    /// The state of a server that begins now, with so many entries in each shard.
    pub fn new<R: Clock>(
        rt: &R,
        alloc: Global,
        own: Option<(UdpSocket, SocketAddr)>,
        forwarders: Option<(UdpSocket, SocketAddr)>,
        roster: &Roster,
        options: &ServeOptions<'_>,
        made: Made,
        record: Option<Recorder<RecordFiles>>,
        status: Option<Status>,
        system: SystemFiles,
    ) -> Result<State, ServeFault>
        ensures window { IfOk result (λ s. s.window_ms ≡ options.now.window_ms) }
        ensures uplinks { IfOk result (λ s. s.uplinks ≡ options.now.output) }
    {
        let parts = Parts::new(rt, alloc, forwarders, roster, options.power)?;
        Ok(State {
            alloc,
            own,
            forwarders: parts.forwarders,
            start_ms: parts.start_ms,
            window_ms: options.window_ms,
            read: Reads::new(options.stop_after),
            broken: AtomicBool::new(false),
            ended: parts.ended,
            gateways: AtomicU64::new(0),
            resting: Resting::new(),
            addresses: parts.addresses,
            address_changes: AtomicU64::new(0),
            lates: parts.lates,
            asks: AskQueue::new(alloc),
            askers: parts.askers,
            made,
            counts: Counts::new(),
            seldoms: Seldoms::new(),
            uplinks: options.output,
            notices: notices(alloc, options.events),
            record,
            status,
            system,
        })
    }

    /// The room for a message of the gateway worker at this place, if it hears forwarders: each does where no other datagrams are heard, and
    /// else every second one.
    pub fn pending_at(&self, place: usize) -> Result<Option<Pending>, AllocError>
        ensures { IfOk result (λ p. is_some p ≡ hears_forwarders (is_some self.now.own) (is_some self.now.forwarders) place) }
    {
        if self.forwarders.is_some() && (self.own.is_none() || place % 2 == 1) {
            Ok(Some(Pending::new(self.alloc)?))
        } else {
            Ok(None)
        }
    }

    /// The server's allocator.
    pub fn alloc(&self) -> Global
        ensures { result ≡ self.now.alloc }
    {
        self.alloc
    }

    /// How uplinks are written.
    pub fn uplinks(&self) -> Output
        ensures { result ≡ self.now.uplinks }
    {
        self.uplinks
    }

    /// How long a window stays open, in milliseconds.
    pub fn window_ms(&self) -> u32
        ensures { result ≡ self.now.window_ms }
    {
        self.window_ms
    }

    /// Whether the status is told.
    pub fn is_told(&self) -> bool
        ensures { result ≡ is_some self.now.status }
    {
        self.status.is_some()
    }

    /// Whether there is a record.
    pub fn is_recorded(&self) -> bool
        ensures { result ≡ is_some self.now.record }
    {
        self.record.is_some()
    }

    /// So many gateway workers are at work from now on.
    pub fn begin_gateways(&self, count: u64) {
        self.gateways.store(count, Ordering::SeqCst);
    }

    /// A gateway worker has ended.
    pub fn end_gateway(&self) {
        self.gateways.fetch_sub(1, Ordering::SeqCst);
    }

    /// Whether gateway workers rest while the others are enough: where there are several, and all hear this server's own datagrams.
    pub fn has_resting(&self) -> bool {
        self.forwarders.is_none() && self.gateways.load(Ordering::SeqCst) > 1
    }

    /// A gateway worker rests until another wakes it, 5 ms at most, and not at all where none other hears datagrams.
    pub fn rest<R: Wait + Clock>(&self, rt: &R) {
        self.resting.rest(rt, self.gateways.load(Ordering::SeqCst));
    }

    /// Wakes a gateway worker that rests, if there is one.
    pub fn wake<R: Wait>(&self, rt: &R) {
        self.resting.wake(rt);
    }

    /// Whether no further datagram or job is to be taken.
    pub fn is_over(&self) -> bool {
        self.is_broken() || self.ended.load(Ordering::SeqCst) || self.read.are_enough()
    }

    /// Whether a worker has met a fault.
    pub fn is_broken(&self) -> bool {
        self.broken.load(Ordering::SeqCst)
    }

    /// A worker has met a fault: all others are to stop.
    pub fn break_off(&self) {
        self.broken.store(true, Ordering::SeqCst);
    }

    /// Whether no gateway worker is left, so that no copy can come any more.
    pub fn is_deaf(&self) -> bool {
        self.gateways.load(Ordering::SeqCst) == 0
    }
}
