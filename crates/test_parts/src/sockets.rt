//! Messages as packet forwarders send them: what is known of their gateways, and two gateways over sockets, with the answers, the
//! downlinks, and how often each thing is counted.

ghost use Rattle.std.specs.Prelude.{◌≡◌, IfSome};

use crate::keys::zero_keys;
use crate::loopback::socket;
use crate::rows::{filled, joined};
use crate::sockets::Message::{Last, Spaced, These};
use crate::sockets::Turn::{Down, Heard, Lost, Unsent};
use ns_forwarder::{Clock, ForwarderFault, Head, Outcome, read_message};
use ns_forwarder_socket::{
    Event, Forwarders, Gateways, Pending, Route, RouteTo, Taken, outcome_name, take,
};
use ns_types::{GatewayId, Target};
use std::alloc::{AllocError, Global};
use std::net::{IpAddr, Ipv4Addr, Net, SocketAddr, UdpSocket};
use std::num::NonZeroUsize;
use std::sync::Wait;
use std::time::{self, Instant};

// A push of gateway 9 with two frames, and an item without a CRC between them.
const PUSH: &[u8] =
    b"\x02\x07\x08\0\0\0\0\0\0\0\0\x09{\"rxpk\":[{\"tmst\":1000000,\"freq\":868.1,\"stat\":1,\"modu\":\"LORA\",\"datr\":\"SF7BW125\",\"rssi\":-95,\"lsnr\":7.5,\"data\":\"AQ==\"},{\"stat\":0},{\"tmst\":4294967290,\"freq\":868.3,\"stat\":1,\"modu\":\"LORA\",\"datr\":\"SF9BW125\",\"rssi\":-100,\"lsnr\":-3,\"data\":\"AgM=\"}]}";

// A push of gateway 9 with another body.
const OTHER: &[u8] = b"\x02\x07\x08\0\0\0\0\0\0\0\0\x09{";

// A push of gateway 9 with a frame, whose counter has wrapped, and items that are left out.
const LEFT_OUT: &str =
    "\x02\x07\x08\0\0\0\0\0\0\0\0\x09{\"rxpk\":[{\"tmst\":4,\"freq\":868.1,\"stat\":1,\"modu\":\"LORA\",\"datr\":\"SF7BW125\",\"rssi\":-95,\"lsnr\":7.5,\"data\":\"AQ==\"},{\"stat\":-1},{\"stat\":-1},{\"stat\":1,\"freq\":868.1,\"modu\":\"x\"},{\"stat\":1,\"freq\":868.1,\"modu\":\"x\"},{\"stat\":1,\"freq\":868.1,\"modu\":\"x\"},7,7,7,7]}";

const TOO_LATE: &[u8] =
    b"\x02\x07\x08\x05\0\0\0\0\0\0\0\x01{\"txpk_ack\":{\"error\":\"TOO_LATE\"}}";

// What is told of a downlink, by the protocol's word and by the name of its count.
#[derive(Clone, Copy)]
struct Told(Outcome, &'static str, &'static str);

const TOLD: &[Told] = &[
    Told(Outcome::Sent, "NONE", "tx_ok"),
    Told(Outcome::TooLate, "TOO_LATE", "TOO_LATE"),
    Told(Outcome::TooEarly, "TOO_EARLY", "TOO_EARLY"),
    Told(
        Outcome::CollisionPacket,
        "COLLISION_PACKET",
        "COLLISION_PACKET",
    ),
    Told(
        Outcome::CollisionBeacon,
        "COLLISION_BEACON",
        "COLLISION_BEACON",
    ),
    Told(Outcome::TxFreq, "TX_FREQ", "TX_FREQ"),
    Told(Outcome::TxPower, "TX_POWER", "TX_POWER"),
    Told(Outcome::GpsUnlocked, "GPS_UNLOCKED", "GPS_UNLOCKED"),
    Told(Outcome::Other, "made up", "tx_other"),
];

// Gateways 1, 2 and 9 ask for downlinks by messages of version 2, and gateway 10 by one of version 1.
const PULLS: &[[u8; 12]] = &[
    [2, 7, 8, 2, 0, 0, 0, 0, 0, 0, 0, 1],
    [2, 7, 8, 2, 0, 0, 0, 0, 0, 0, 0, 2],
    PULL_OF_9,
];

const PULL_OF_9: [u8; 12] = [2, 7, 8, 2, 0, 0, 0, 0, 0, 0, 0, 9];

const PULL_OF_10: [u8; 12] = [1, 7, 8, 2, 0, 0, 0, 0, 0, 0, 0, 10];

// The head of a message, and what it tells of its gateway.
fn take_in(alloc: Global, bytes: &[u8]) -> Option<(Head, Taken)> {
    let Ok(read) = read_message(bytes) else {
        return None;
    };
    match take(alloc, &read, Clock::default(), 5) {
        Ok(taken) => Some((read.head(), taken)),
        Err(_) => None,
    }
}

// Takes a message that came from this address, and keeps what it tells of its gateway.
fn hear(alloc: Global, gateways: &mut Gateways, bytes: &[u8], peer: SocketAddr) -> bool {
    match take_in(alloc, bytes) {
        Some((head, taken)) => gateways.note(&head, &taken, peer).is_ok(),
        None => false,
    }
}

// The address of this port.
fn at(port: u16) -> SocketAddr {
    SocketAddr::new(IpAddr::V4(Ipv4Addr::new(10, 0, 0, 1)), port)
}

// Nothing is known of gateways, of which two are kept.
fn none(alloc: Global) -> Option<Gateways> {
    Gateways::of(alloc, zero_keys()?, NonZeroUsize::new(2)?).ok()
}

// Three gateways ask for downlinks. Whether each was heard.
fn have_asked(alloc: Global, gateways: &mut Gateways) -> bool {
    let mut have_asked = true;
    for pull in PULLS {
        have_asked = hear(alloc, gateways, pull, at(1700)) && have_asked;
    }
    have_asked
}

// Whether the last two gateways that asked have a route.
fn are_routed(gateways: &Gateways) -> bool {
    let route = Some(Route {
        addr: at(1700),
        version: 2,
    });
    gateways.gateway(GatewayId(1)).route.is_none()
        && gateways.gateway(GatewayId(2)).route == route
        && gateways.gateway(GatewayId(9)).route == route
}

// The moment of the last reading of gateway 9.
fn latest(gateways: &Gateways) -> Option<u64> {
    Some(gateways.gateway(GatewayId(9)).clock.latest?.moment)
}

// Whether routes and readings are kept, of two gateways.
fn are_kept(alloc: Global) -> bool {
    let Some(mut gateways) = none(alloc) else {
        return false;
    };
    have_asked(alloc, &mut gateways)
        && are_routed(&gateways)
        && hear(alloc, &mut gateways, PUSH, at(9))
        && are_routed(&gateways)
        && latest(&gateways) == Some(4_294_967_290)
}

// Whether a message tells that a downlink came too late.
fn is_too_late(alloc: Global, bytes: &[u8]) -> bool {
    matches!(
        take_in(alloc, bytes),
        Some((_, Taken::Told(Outcome::TooLate)))
    )
}

/// What is known of gateways is kept, and a TX_ACK is told.
#[test]
fn gateways_are_known(rt: HostRuntime) {
    assert!(rt; are_kept(rt.alloc()) && is_too_late(rt.alloc(), TOO_LATE));
}

// The forwarders of this socket.
fn forwarders<R: time::Clock>(rt: &R, alloc: Global, socket: UdpSocket) -> Option<Forwarders> {
    match (zero_keys(), Instant::now(rt)) {
        (Some(keys), Ok(start)) => Forwarders::new(alloc, keys, socket, start, 27).ok(),
        _ => None,
    }
}

// How the datagram of the first frame begins, the whole datagram of the second, and how that of the third begins, after a wrap of the
// gateway's counter.
const FIRST: [u8; 10] = [1, 1, 0, 0, 0, 0, 0, 0, 0, 9];

const SECOND: [u8; 30] = [
    1, 1, 0, 0, 0, 0, 0, 0, 0, 9, 0, 0, 0, 0, 0xff, 0xff, 0xff, 0xfa, 0x33, 0xc1, 0x34, 0xe0, 3,
    0xfc, 0x18, 0xff, 0xe2, 2, 2, 3,
];

const THIRD: [u8; 18] = [1, 1, 0, 0, 0, 0, 0, 0, 0, 9, 0, 0, 0, 1, 0, 0, 0, 4];

const TARGET: Target = Target {
    gateway: GatewayId(9),
    moment: 2_000_000,
    freq: 868_100_000,
    dr: 5,
};

// How a byte 1 is sent there, behind the head of the message.
const DOWNLINK: &[u8] =
    b"{\"txpk\":{\"codr\":\"4/5\",\"data\":\"AQ==\",\"datr\":\"SF7BW125\",\"freq\":868.1,\"imme\":false,\"ipol\":true,\"modu\":\"LORA\",\"ncrc\":true,\"powe\":27,\"rfch\":0,\"size\":1,\"tmst\":2000000}}";

// The front of what gateway 9 tells of a downlink, up to the protocol's word.
const FRONT: &str = "\x02\x07\x08\x05\0\0\0\0\0\0\0\x09{\"txpk_ack\":{\"error\":\"";

// What is counted once all of it has come.
const COUNTS: &str =
    " push 3 pull 2 tx_ack 45 acknowledged 5 frames 3 no_memory 0 F1 1 F2 0 F3 0 F4 0 F5 0 F6 1 F7 4 F8 2 F9 1 F10 3 F11 0 tx_ok 1 TOO_LATE 2 TOO_EARLY 3 COLLISION_PACKET 4 COLLISION_BEACON 5 TX_FREQ 6 TX_POWER 7 GPS_UNLOCKED 8 tx_other 9";

// The acknowledgement of a push.
const ACK: Option<[u8; 4]> = Some([2, 7, 8, 1]);

// What the gateway sends.
#[derive(Clone, Copy)]
enum Message {
    // This message.
    These(&'static [u8]),
    // A push with spaces behind it, so many bytes together.
    Spaced(usize),
    // Nothing: what comes is of the message before.
    Last,
}

// A part of the exchange.
#[derive(Clone, Copy)]
enum Turn {
    // This comes of a message of the gateway, with these bytes at the front of the buffer, and the gateway is answered so.
    Heard(Message, Event, &'static [u8], Option<[u8; 4]>),
    // Downlinks have no route to this gateway.
    Lost(u64),
    // A downlink reaches this gateway, with this head.
    Down(u64, [u8; 4]),
    // No downlink is sent to this gateway outside the band, or to port 0, which the system refuses.
    Unsent(u64),
}

const TURNS: &[Turn] = &[
    // The frames of a push become datagrams one after the other, and each push is acknowledged, also one of another body.
    Heard(These(PUSH), Event::Datagram(29), &FIRST, ACK),
    Heard(Last, Event::Datagram(30), &SECOND, None),
    Heard(These(OTHER), Event::Refused(ForwarderFault::Body), &[], ACK),
    // A push of 16,384 bytes is heard, by the clock of the one before it. A longer one is not heard, nor is it acknowledged: the next answer
    // is that to the message after it.
    Heard(Spaced(16_384), Event::Datagram(29), &THIRD, ACK),
    Heard(
        Spaced(16_385),
        Event::Refused(ForwarderFault::TooLong),
        &[],
        None,
    ),
    // A pull is acknowledged, and downlinks had no route before. Each downlink has the next token, or none by version 1.
    Lost(9),
    Heard(These(&PULL_OF_9), Event::Message, &[], Some([2, 7, 8, 4])),
    Down(9, [2, 0, 0, 3]),
    Down(9, [2, 0, 1, 3]),
    Lost(10),
    Heard(These(&PULL_OF_10), Event::Message, &[], Some([1, 7, 8, 4])),
    Down(10, [1, 0, 0, 3]),
    Unsent(9),
];

// The forwarders of the server and their address, and the socket of both gateways.
#[derive(Drop)]
struct Exchange<'a> {
    alloc: Global,
    forwarders: &'a Forwarders,
    server: SocketAddr,
    gateway: &'a UdpSocket,
}

impl Exchange<'_> {
    // The gateway sends this. Whether it could.
    fn is_sent(&self, message: &[u8]) -> bool {
        self.gateway.send_to(message, self.server).is_ok()
    }

    // It sends this text.
    fn is_text_sent(&self, text: Result<String, AllocError>) -> bool {
        match text {
            Ok(text) => self.is_sent(text.as_str().as_bytes()),
            Err(_) => false,
        }
    }

    // It sends this message.
    fn has_sent(&self, message: Message) -> bool {
        match message {
            These(bytes) => self.is_sent(bytes),
            Spaced(len) => {
                let spaces = len.saturating_sub(LEFT_OUT.len());
                self.is_text_sent(filled(self.alloc, LEFT_OUT, " ", spaces, ""))
            }
            Last => true,
        }
    }

    // Whether the gateway is answered by this.
    fn is_answered(&self, head: [u8; 4], body: &[u8]) -> bool {
        let mut buf = [0; 512];
        match self.gateway.recv(&mut buf) {
            Ok(n) => {
                n == body.len().saturating_add(4)
                    && buf.starts_with(&head)
                    && buf[4..].starts_with(body)
            }
            Err(_) => false,
        }
    }

    // Whether the gateway is acknowledged so, if it is to be.
    fn is_acknowledged(&self, ack: Option<[u8; 4]>) -> bool {
        match ack {
            Some(head) => self.is_answered(head, &[]),
            None => true,
        }
    }

    // Whether a downlink for a gateway is sent by its route, where it has one.
    fn has_sent_down<R: Wait>(&self, rt: &R, target: &Target) -> bool {
        match self.forwarders.route(rt, target.gateway) {
            Some(route) => self.forwarders.send(self.alloc, route, target, &[1]),
            None => false,
        }
    }

    // Whether a downlink reaches the gateway of this number, with this head.
    fn is_reached<R: Wait>(&self, rt: &R, gateway: GatewayId, head: [u8; 4]) -> bool {
        self.has_sent_down(rt, &Target { gateway, ..TARGET }) && self.is_answered(head, DOWNLINK)
    }

    // A route to port 0.
    fn nowhere(&self, gateway: GatewayId) -> Option<RouteTo>
        ensures { IfSome result (λ r. r.gateway ≡ gateway) }
    {
        let mut known = Gateways::of(self.alloc, zero_keys()?, NonZeroUsize::new(1)?).ok()?;
        let route = Route {
            addr: SocketAddr::new(self.server.ip(), 0),
            version: 2,
        };
        known.ask(gateway, route).ok()?;
        known.route_to(gateway)
    }

    // Whether no downlink is sent to port 0.
    fn is_lost_nowhere(&self, target: &Target) -> bool {
        match self.nowhere(target.gateway) {
            Some(route) => !self.forwarders.send(self.alloc, route, target, &[1]),
            None => false,
        }
    }

    // Whether no downlink is sent to the gateway of this number outside the band, or to port 0.
    fn is_unsent<R: Wait>(&self, rt: &R, gateway: GatewayId) -> bool {
        let target = Target { gateway, ..TARGET };
        !self.has_sent_down(rt, &Target { freq: 1, ..target }) && self.is_lost_nowhere(&target)
    }

    // Whether the counts are those of the whole exchange.
    fn is_counted(&self) -> bool {
        match format!(in self.alloc; "{}", self.forwarders.counts()) {
            Ok(counts) => counts.as_str() == COUNTS,
            Err(_) => false,
        }
    }

    // Whether what comes next to the server is this, with these bytes at the front of the buffer.
    fn is_next<R: Wait + time::Clock>(
        &self,
        rt: &R,
        pending: &mut Pending,
        want: Event,
        front: &[u8],
    ) -> bool {
        let mut buf = [0; 512];
        match self.forwarders.next(rt, self.alloc, pending, &mut buf) {
            Ok(event) => event == want && buf.starts_with(front),
            Err(_) => false,
        }
    }

    // Whether a part of the exchange comes so.
    fn is_so<R: Wait + time::Clock>(&self, rt: &R, pending: &mut Pending, turn: Turn) -> bool {
        match turn {
            Heard(message, want, front, ack) => {
                self.has_sent(message)
                    && self.is_next(rt, pending, want, front)
                    && self.is_acknowledged(ack)
            }
            Lost(gateway) => self.forwarders.route(rt, GatewayId(gateway)).is_none(),
            Down(gateway, head) => self.is_reached(rt, GatewayId(gateway), head),
            Unsent(gateway) => self.is_unsent(rt, GatewayId(gateway)),
        }
    }

    // Whether gateway 9 tells this of a downlink so many times.
    fn is_told<R: Wait + time::Clock>(
        &self,
        rt: &R,
        pending: &mut Pending,
        told: &Told,
        times: u32,
    ) -> bool {
        let event = Event::Told(GatewayId(9), told.0);
        let mut is_told = outcome_name(told.0) == told.2;
        for _ in 0..times {
            is_told = is_told
                && self.is_text_sent(joined(self.alloc, &[FRONT, told.1, "\"}}"]))
                && self.is_next(rt, pending, event, &[]);
        }
        is_told
    }

    // Whether all of it comes so, and then the first outcome once, the second twice, and so on.
    fn is_held<R: Wait + time::Clock>(&self, rt: &R, pending: &mut Pending) -> bool {
        let mut is_held = true;
        for &turn in TURNS {
            is_held = is_held && self.is_so(rt, pending, turn);
        }
        let mut times = 1u32;
        for told in TOLD {
            is_held = is_held && self.is_told(rt, pending, told, times);
            times = times.wrapping_add(1);
        }
        is_held && self.is_counted()
    }

    // The same from the beginning on.
    fn is_held_anew<R: Wait + time::Clock>(&self, rt: &R) -> bool {
        match Pending::new(self.alloc) {
            Ok(mut pending) => self.is_held(rt, &mut pending),
            Err(_) => false,
        }
    }
}

// All of it, between this gateway and a server with this socket.
fn is_held_by<R: Wait + time::Clock>(
    rt: &R,
    alloc: Global,
    gateway: &UdpSocket,
    socket: UdpSocket,
) -> bool {
    let Ok(server) = socket.local_addr() else {
        return false;
    };
    match forwarders(rt, alloc, socket) {
        Some(forwarders) => {
            let exchange = Exchange {
                alloc,
                forwarders: &forwarders,
                server,
                gateway,
            };
            exchange.is_held_anew(rt)
        }
        None => false,
    }
}

// The same between two sockets of this machine.
fn is_held_here<R: Net + Wait + time::Clock>(rt: &R, alloc: Global) -> bool {
    match (socket(rt, 0), socket(rt, 0)) {
        (Some(gateway), Some(server)) => is_held_by(rt, alloc, &gateway, server),
        _ => false,
    }
}

/// A forwarder is heard and answered, and each outcome has the name by which it is counted.
#[test]
fn a_forwarder_is_heard_and_answered(rt: HostRuntime) {
    assert!(rt; is_held_here(&rt, rt.alloc()));
}
