//! Datagrams of a gateway over loopback, and a downlink to it.

use crate::loopback::{local, socket};
use crate::served::standing::Standing;
use crate::served::states::downlink;
use ns_calls::Bytes;
use ns_front::FrameName;
use ns_outside::{Datagrams, Downlinks, Received};
use ns_serve_sockets::{FromSocket, ToSocket};
use ns_serve_state::State;
use std::net::{Net, SocketAddr, UdpSocket};
use std::sync::Wait;
use std::sync::atomic::Ordering;
use std::time::Clock;

// An uplink as the gateway 161 heard it.
const HEARD: [u8; 45] = [
    1, 1, 0, 0, 0, 0, 0, 0, 0, 0xa1, 0, 0, 0, 0, 0, 0x0f, 0x42, 0x40, 0x33, 0xbe, 0x27, 0xa0, 5,
    0xfc, 0x4a, 0, 0x4b, 17, 0x80, 0xf1, 0x7d, 0xbe, 0x49, 0, 2, 0, 1, 0x95, 0x43, 0x78, 0x76,
    0x67, 0x23, 0xab, 0xef,
];

// What tells its frame from others.
const NAME: FrameName = FrameName {
    addr: 0x49be_7df1,
    fcnt: 2,
    mic: 0xefab_2367,
};

/// A server's socket of its own, if it has one.
pub fn own_socket<R: Net>(rt: &R, has_one: bool) -> Option<(UdpSocket, SocketAddr)> {
    if !has_one {
        return None;
    }
    match socket(rt, 0) {
        Some(socket) => Some((socket, local(0))),
        None => None,
    }
}

// A gateway's socket at this port, which sends to this socket of a server.
fn gateway<R: Net>(rt: &R, own: &UdpSocket, port: u16) -> Option<UdpSocket> {
    let Ok(server) = own.local_addr() else {
        return None;
    };
    let gateway = socket(rt, port)?;
    match gateway.connect(server) {
        Ok(()) => Some(gateway),
        Err(_) => None,
    }
}

/// A gateway's socket, which sends to a server's socket of its own.
pub fn gateway_of<R: Net>(rt: &R, state: &State) -> Option<UdpSocket> {
    match &state.own {
        Some((own, _)) => gateway(rt, own, 0),
        None => None,
    }
}

// What is received at these times of copies whose window was closed at 0.
const COPIES: &[(u64, Received)] = &[
    (0, Received::Got(45)),
    (1999, Received::Got(45)),
    (2000, Received::Idle),
    (3999, Received::Idle),
    (4000, Received::Got(45)),
];

// Whether this is received of a copy at this time.
fn is_received<R: Wait + Clock>(
    rt: &Standing<'_, R>,
    from: &mut FromSocket<'_>,
    gateway: &UdpSocket,
    (ms, want): (u64, Received),
) -> bool {
    let mut buf = [0u8; 512];
    rt.stand_at(ms);
    gateway.send(&HEARD).is_ok() && from.next(rt, &mut buf) == want
}

/// Whether a datagram of a gateway is received where the clock stands at its start.
pub fn is_heard<R: Wait + Clock>(
    rt: &Standing<'_, R>,
    from: &mut FromSocket<'_>,
    gateway: &UdpSocket,
) -> bool {
    is_received(rt, from, gateway, (0, Received::Got(45)))
}

// Whether a copy is received at each of those times as it is told.
fn are_received<R: Wait + Clock>(
    rt: &Standing<'_, R>,
    from: &mut FromSocket<'_>,
    gateway: &UdpSocket,
) -> bool {
    let mut are_received = true;
    for &copy in COPIES {
        are_received = is_received(rt, from, gateway, copy) && are_received;
    }
    are_received
}

/// Whether copies of a frame are late for a while, and counted then.
pub fn are_late_for_a_while<R: Wait + Clock + Net>(rt: &Standing<'_, R>, state: &State) -> bool {
    let Some(gateway) = gateway_of(rt.host(), state) else {
        return false;
    };
    state.lates.note(rt, NAME, 7000);
    are_received(rt, &mut FromSocket::new(state, None), &gateway)
        && state.counts.late.load(Ordering::SeqCst) == 2
}

// How many bytes a gateway gets.
fn count_bytes(gateway: &UdpSocket) -> usize {
    let mut buf = [0u8; 512];
    gateway.recv(&mut buf).unwrap_or(0)
}

/// Whether a gateway gets the longest downlink once it was heard.
pub fn longest_leaves<R: Wait + Clock + Net>(rt: &Standing<'_, R>, state: &State) -> bool {
    let Some(gateway) = gateway_of(rt.host(), state) else {
        return false;
    };
    is_heard(rt, &mut FromSocket::new(state, None), &gateway)
        && ToSocket { state }.send(rt, &downlink(Bytes::of(&[0x20; 33])))
        && count_bytes(&gateway) == 61
}

// Whether none of 51 receives is the last, each after a datagram to a gateway that is not there, which makes it fail.
fn goes_on<R: Wait + Clock>(
    rt: &Standing<'_, R>,
    own: &UdpSocket,
    from: &mut FromSocket<'_>,
) -> bool {
    let mut buf = [0u8; 512];
    for _ in 0..51 {
        if own.send(&[0]).is_err() || from.next(rt, &mut buf) != Received::Idle {
            return false;
        }
    }
    true
}

// The port of a gateway to which a server's own socket sends, and which is there no more.
fn lost_gateway<R: Net>(rt: &R, own: &UdpSocket) -> Option<u16> {
    let lost = socket(rt, 0)?;
    let Ok(there) = lost.local_addr() else {
        return None;
    };
    match own.connect(there) {
        Ok(()) => Some(there.port()),
        Err(_) => None,
    }
}

// Whether a gateway at this port is heard, which is there for that time alone.
fn is_heard_at<R: Wait + Clock + Net>(
    rt: &Standing<'_, R>,
    own: &UdpSocket,
    from: &mut FromSocket<'_>,
    port: u16,
) -> bool {
    match gateway(rt.host(), own, port) {
        Some(gateway) => is_heard(rt, from, &gateway),
        None => false,
    }
}

// Whether receives go on that fail 51 times before a datagram comes, and 51 times after it.
fn goes_on_between<R: Wait + Clock + Net>(
    rt: &Standing<'_, R>,
    own: &UdpSocket,
    from: &mut FromSocket<'_>,
) -> bool {
    match lost_gateway(rt.host(), own) {
        Some(port) => {
            goes_on(rt, own, from) && is_heard_at(rt, own, from, port) && goes_on(rt, own, from)
        }
        None => false,
    }
}

/// Whether more than 100 failures are waited out, and counted.
pub fn is_waited_out<R: Wait + Clock + Net>(rt: &Standing<'_, R>, state: &State) -> bool {
    let Some((own, _)) = &state.own else {
        return false;
    };
    goes_on_between(rt, own, &mut FromSocket::new(state, None))
        && state.counts.unreceived.load(Ordering::SeqCst) == 102
}
