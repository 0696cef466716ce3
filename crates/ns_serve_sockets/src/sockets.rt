//! Datagrams from gateways, and downlinks to them, by the socket of this server's own datagrams and by that of packet forwarders.
ghost use Rattle.std.specs.Prelude.{◌≡◌, ◌≢◌, ◌<◌, ◌≤◌, ◌⊎◌, ◌↔◌, ℕ, None, IsTrue, IfSome, Some, take};
ghost use Rattle.std.specs.Duration.{as_nanos};
ghost use Rattle.ns_outside.specs.Datagrams.{FitsBuffer};
ghost use Rattle.ns_front.specs.declared.front.Seen.{Seen};
ghost use Rattle.ns_front.specs.Front.{seen_of, NamesFrame};
ghost use Rattle.ns_front.specs.Noted.{IsNoted};
ghost use Rattle.ns_serve_sockets.specs.Front.{NotesAt, NotesNamed};

use crate::pace::Pace;
use ns_calls::Downlink;
use ns_forwarder_socket::{Event, Pending};
use ns_front::{NotedPeers, PeerAddr, front_of, read_seen};
use ns_link::write_down;
use ns_log::{Log, error, warn};
use ns_outside::{Datagrams, Downlinks, Received};
use ns_serve_parts::more;
use ns_serve_state::{
    State, log_counts, log_message, look_at_drops, note_message, now_ms, write_record,
};
use ns_status::{Sign, airtime_us};
use ns_types::Target;
use std::io::{Error, ErrorKind};
use std::net::{SocketAddr, UdpSocket};
use std::sync::Wait;
use std::sync::atomic::Ordering;
use std::thread;
use std::time::{Clock, Duration};

// The counts are looked at after so many datagrams, and whenever none comes.
const BETWEEN_LOOKS: u64 = 64;

// How long a receive that failed is waited out.
const FAILURE_MS: u64 = 100;

// How many failures in a row a worker waits out. With the next one it takes the socket for lost.
const MOST_FAILURES: u32 = 100;

/// The datagrams of one of the sockets.
#[derive(Drop)]
pub struct FromSocket<'a> {
    state: &'a State,
    // The room for a message, where forwarders are heard.
    pending: Option<Pending>,
    // How many receives failed in a row.
    failures: u32,
    // The gateways that it heard last.
    noted: NotedPeers,
    // How its last datagrams came.
    pace: Pace,
    // Where it counts them.
    place: usize,
}

// How long a worker waits after a receive that failed.
fn failure_nap() -> Duration
    ensures { as_nanos result ≡ 100_000_000 }
{
    Duration::from_millis(FAILURE_MS)
}

// What the clock tells, if it does.
fn moment<R: Clock>(rt: &R) -> Option<Duration> {
    rt.monotonic().ok()
}

// How long ago a receive began, nothing where the clock does not tell.
fn since<R: Clock>(rt: &R, start: Option<Duration>) -> Duration {
    match (start, moment(rt)) {
        (Some(start), Some(now)) => now.saturating_sub(start),
        _ => Duration::ZERO,
    }
}

// What follows a receive that gave nothing.
#[derive(Clone, Copy)]
pub(crate) enum Without {
    /// None came for a while.
    Nothing,
    /// It failed, and is tried again a little later.
    Later,
    /// It has failed too often.
    Lost,
}

/// What follows a receive with an error of this kind, after so many failures in a row.
pub(crate) fn after_error(kind: ErrorKind, failures: u32) -> Without
    ensures nothing { (result ≡ Without.Nothing) ↔ ((kind ≡ ErrorKind.WouldBlock) ⊎ ((kind ≡ ErrorKind.TimedOut) ⊎ (kind ≡ ErrorKind.Interrupted))) }
    ensures later { result ≡ Without.Later → failures < 100 }
    ensures lost { result ≡ Without.Lost → 100 ≤ failures }
{
    match kind {
        ErrorKind::WouldBlock | ErrorKind::TimedOut | ErrorKind::Interrupted => Without::Nothing,
        _ if failures < MOST_FAILURES => Without::Later,
        _ => Without::Lost,
    }
}

impl<'a> FromSocket<'a> {
    /// The datagrams of the forwarders' socket where there is room for their messages, and else of the other.
    pub fn new(state: &'a State, pending: Option<Pending>) -> FromSocket<'a> {
        FromSocket {
            state,
            pending,
            failures: 0,
            noted: NotedPeers::new(),
            pace: Pace::new(),
            place: state.read.place(),
        }
    }

    // A datagram was received, where workers rest by a receive that began then: one of them is woken after many that were there before.
    fn paced<R: Wait + Clock>(&mut self, rt: &R, start: Option<Duration>) {
        if self.pace.comes(since(rt, start)) {
            self.state.wake(rt);
        }
    }

    // Receives the next one of this server's own datagrams.
    fn next_own<R: Wait + Clock + Log>(&mut self, rt: &R, buf: &mut [u8; 512]) -> Received
        ensures fits { FitsBuffer result }
    {
        let state = self.state;
        let Some((socket, _)) = &state.own else {
            return self.without_socket(rt);
        };
        let rests = state.has_resting();
        let start = if rests { moment(rt) } else { None };
        match &socket.recv_from(buf) {
            Ok((n, from)) => {
                if rests {
                    self.paced(rt, start);
                }
                self.failures = 0;
                let peer = Some(*from);
                counted(rt, state, self.place, &mut self.noted, buf, *n, &peer)
            }
            Err(error) => self.without(rt, error),
        }
    }

    // Says that none came, since there is no socket of this kind.
    #[inline(never)]
    fn without_socket<R: Wait + Clock + Log>(&mut self, rt: &R) -> Received
        ensures { FitsBuffer result }
    {
        self.without(rt, &Error::from(ErrorKind::NotConnected))
    }

    // Receives the next message of a forwarder. It stays a function of its own, so that other datagrams make no room for what comes of one.
    #[inline(never)]
    fn next_message<R: Wait + Clock + Log>(&mut self, rt: &R, buf: &mut [u8; 512]) -> Received
        ensures fits { FitsBuffer result }
    {
        let state = self.state;
        let event = match (&mut self.pending, &state.forwarders) {
            (Some(pending), Some((forwarders, _))) => {
                let event = forwarders.next(rt, state.alloc, pending, buf);
                note(rt, state, pending);
                event
            }
            _ => Err(Error::from(ErrorKind::NotConnected)),
        };
        match event {
            Ok(Event::Datagram(n)) => {
                self.failures = 0;
                counted(rt, state, self.place, &mut self.noted, buf, n, &None)
            }
            Ok(event) => {
                self.failures = 0;
                log_message(rt, state, event);
                look(rt, state);
                Received::Idle
            }
            Err(error) => self.without(rt, &error),
        }
    }

    // Whom this hears.
    fn senders(&self) -> &'static str {
        match self.pending {
            Some(_) => "forwarders",
            None => "gateways",
        }
    }

    // Says that none came. A failure is counted, logged and waited out; where there were too many in a row, the source has failed. It stays a
    // function of its own, as the others that most datagrams do not run through, so that those lie close together in a processor's cache.
    #[inline(never)]
    fn without<R: Wait + Clock + Log>(&mut self, rt: &R, error: &Error) -> Received
        ensures none { (n : ℕ) → result ≢ Received.Got n }
        ensures fits { FitsBuffer result }
    {
        let state = self.state;
        match after_error(error.kind(), self.failures) {
            Without::Nothing => {
                self.failures = 0;
                look(rt, state);
                Received::Idle
            }
            Without::Later => {
                self.failures += 1;
                more(&state.counts.unreceived);
                if let Some(count) = state.seldoms.receive.happened(now_ms(rt, state)) {
                    warn!(rt; "receiving from {} failed: {error}, {count} since the line before", self.senders());
                }
                thread::sleep(rt, failure_nap());
                Received::Idle
            }
            Without::Lost => {
                error!(rt; "receiving from {} failed more than {MOST_FAILURES} times in a row: {error}", self.senders());
                Received::Failed
            }
        }
    }
}

// Notes what the message was that was taken, where one was.
fn note<R: Wait + Clock + Log>(rt: &R, state: &State, pending: &mut Pending) {
    if let Some(heard) = pending.take_heard() {
        note_message(rt, state, &heard);
    }
}

// A gateway with this number was heard from here, if it speaks this server's own datagrams.
fn hear<R: Wait>(
    rt: &R,
    state: &State,
    noted: &mut NotedPeers,
    gateway: u64,
    peer: &Option<SocketAddr>,
)
    ensures { NotesAt noted.old noted.new gateway peer.now }
{
    let Some(peer) = peer else {
        return;
    };
    let mut addresses = state.addresses.lock(rt);
    let _ = addresses.hear(noted, gateway, *peer);
    let changes = addresses.changes();
    state.address_changes.store(changes, Ordering::SeqCst);
}

// Whether it is noted that a gateway was heard from here, if it speaks this server's own datagrams, and no address has changed since.
fn is_noted(state: &State, noted: &NotedPeers, gateway: u64, peer: &Option<SocketAddr>) -> bool
    ensures { IsTrue result → IfSome peer.now (λ peer. (n : ℕ) × IsNoted noted.now gateway peer n) }
{
    match peer {
        Some(peer) => noted.has(gateway, *peer, state.address_changes.load(Ordering::SeqCst)),
        None => true,
    }
}

// Whether nothing is to be done before the call of a datagram, by what stands in it where its gateway and its frame would: the address
// of the gateway is noted, and no copy of the frame is late.
fn is_plain<R: Wait + Clock>(
    rt: &R,
    state: &State,
    noted: &NotedPeers,
    datagram: &[u8],
    peer: &Option<SocketAddr>,
) -> bool
    ensures { IsTrue result → IfSome peer.now (λ peer. (seen : Seen) → seen_of datagram.now ≡ Some seen → (n : ℕ) × IsNoted noted.now seen.gateway peer n) }
{
    let Some(front) = front_of(datagram) else {
        return false;
    };
    if !is_noted(state, noted, front.0, peer) {
        return false;
    }
    match state.lates.due(rt, front.1) {
        Some(due) => now_ms(rt, state) < due,
        None => true,
    }
}

// Keeps where a gateway was heard that speaks this server's own datagrams, and says whether the datagram is a late copy.
fn take_in<R: Wait + Clock>(
    rt: &R,
    state: &State,
    noted: &mut NotedPeers,
    datagram: &[u8],
    peer: &Option<SocketAddr>,
) -> bool
    ensures notes { NotesNamed noted.old noted.new datagram.now peer.now }
    ensures late { IsTrue result → NamesFrame datagram.now }
{
    if is_plain(rt, state, noted, datagram, peer) {
        return false;
    }
    take_in_wholly(rt, state, noted, datagram, peer)
}

// The same, where it is not known that nothing is to be done.
#[inline(never)]
fn take_in_wholly<R: Wait + Clock>(
    rt: &R,
    state: &State,
    noted: &mut NotedPeers,
    datagram: &[u8],
    peer: &Option<SocketAddr>,
) -> bool
    ensures notes { NotesNamed noted.old noted.new datagram.now peer.now }
    ensures late { IsTrue result → NamesFrame datagram.now }
{
    let Some(seen) = read_seen(datagram) else {
        return false;
    };
    hear(rt, state, noted, seen.gateway, peer);
    match seen.frame {
        Some(frame) => state.lates.is_late(rt, frame, now_ms(rt, state)),
        None => false,
    }
}

// Counts a datagram of so many bytes at a place, and gives it where it is no late copy and none too many.
#[inline(always)]
fn counted<R: Wait + Clock + Log>(
    rt: &R,
    state: &State,
    place: usize,
    noted: &mut NotedPeers,
    buf: &[u8; 512],
    n: usize,
    peer: &Option<SocketAddr>,
) -> Received
    requires { n ≤ 512 }
    ensures fits { FitsBuffer result }
    ensures whole { (m : ℕ) → result ≡ Received.Got m → m ≡ n }
    ensures late { result ≡ Received.Idle → NamesFrame (take n buf.now) }
    ensures heard { result ≢ Received.Failed }
    ensures notes { NotesNamed noted.old noted.new (take n buf.now) peer.now }
{
    let Some(before) = state.read.add_one(place) else {
        return Received::End;
    };
    if before % BETWEEN_LOOKS == 0 {
        look(rt, state);
    }
    if take_in(rt, state, noted, &buf[..n], peer) {
        more(&state.counts.late);
        return Received::Idle;
    }
    Received::Got(n)
}

impl<'a, R: Wait + Clock + Log> Datagrams<R> for FromSocket<'a> {
    ghost given = { λ _. None };

    fn next(&mut self, rt: &R, buf: &mut [u8; 512]) -> Received {
        let state = self.state;
        if state.is_over() {
            return Received::End;
        }
        if self.pace.rests() {
            state.rest(rt);
        }
        match self.pending {
            Some(_) => self.next_message(rt, buf),
            None => self.next_own(rt, buf),
        }
    }
}

// Looks whether the system dropped datagrams, and logs the counts where a minute has passed.
#[inline(never)]
fn look<R: Clock + Log>(rt: &R, state: &State) {
    look_at_drops(rt, state, false);
    if state.counts.is_due(now_ms(rt, state)) {
        log_counts(rt, state);
    }
}

/// Downlinks, each to where its gateway's forwarder asked for them last, and else to where the gateway was heard last.
#[derive(Drop)]
pub struct ToSocket<'a> {
    pub state: &'a State,
}

impl<'a, R: Wait + Clock> Downlinks<R> for ToSocket<'a> {
    fn send(&mut self, rt: &R, downlink: &Downlink) -> bool {
        send_down(rt, self.state, downlink)
    }
}

/// Sends a downlink once what it rests on is written, and says whether it was sent. A sent one is noted of its gateway, with its airtime.
pub(crate) fn send_down<R: Wait + Clock>(rt: &R, state: &State, downlink: &Downlink) -> bool {
    if write_record(rt, state).is_err() || !send_now(rt, state, downlink) {
        return false;
    }
    if let Some(status) = &state.status {
        let target = &downlink.target;
        let sent = Sign::Sent(airtime_us(target.dr, downlink.frame.as_slice().len()));
        status.note_sign(rt, target.gateway, sent, now_ms(rt, state));
    }
    true
}

// Sends a downlink, and says whether it was sent.
fn send_now<R: Wait>(rt: &R, state: &State, downlink: &Downlink) -> bool {
    let (gateway, frame) = (downlink.target.gateway, downlink.frame.as_slice());
    if let Some((forwarders, _)) = &state.forwarders {
        if let Some(route) = forwarders.route(rt, gateway) {
            return forwarders.send(state.alloc, route, &downlink.target, frame);
        }
    }
    match (&state.own, peer_of(rt, state, &downlink.target)) {
        (Some((socket, _)), Some(peer)) => send_own(socket, peer, downlink),
        _ => false,
    }
}

// Sends a downlink as a datagram of this server's own, and says whether it was sent.
fn send_own(socket: &UdpSocket, peer: PeerAddr, downlink: &Downlink) -> bool
    requires { peer.gateway ≡ downlink.now.target.gateway }
{
    let mut buf = [0u8; 61];
    let Ok(datagram) = write_down(&downlink.target, downlink.frame.as_slice(), &mut buf) else {
        return false;
    };
    match socket.send_to(datagram, peer.addr()) {
        Ok(n) => n == datagram.len(),
        Err(_) => false,
    }
}

// Where the gateway of a downlink was heard last.
fn peer_of<R: Wait>(rt: &R, state: &State, target: &Target) -> Option<PeerAddr>
    ensures { IfSome result (λ p. p.gateway ≡ target.now.gateway) }
{
    let addresses = state.addresses.lock(rt);
    addresses.addr_for(target)
}
