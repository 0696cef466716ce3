//! What each message becomes.

use ns_forwarder::{ForwarderFault, Handed, Head, Message, read_message};
use ns_forwarder_socket::{Gateways, Route, Taken, take};
use std::alloc::Global;
use std::fmt::Write;
use std::net::{IpAddr, Ipv4Addr, SocketAddr};
use worked_frames::joins::text::bytes_of;
use worked_frames::put::{put, put_hex, show};

// What a message has become: what is taken of it, whether that is noted, and where downlinks of its gateway go then.
#[derive(Drop)]
struct Became {
    taken: Result<Taken, ForwarderFault>,
    is_noted: bool,
    route: Option<Route>,
}

// What is known of gateways.
trait Known {
    // Takes a message that comes at this time from a port.
    fn take(&mut self, alloc: Global, message: &Message<'_>, now: u64, port: u16) -> Became;
}

impl Known for Gateways {
    fn take(&mut self, alloc: Global, message: &Message<'_>, now: u64, port: u16) -> Became {
        let head = message.head();
        let taken = take(alloc, message, self.gateway(head.gateway).clock, now);
        let is_noted = match &taken {
            Ok(taken) => self.note(&head, taken, peer(port)).is_ok(),
            Err(_) => true,
        };
        Became {
            taken,
            is_noted,
            route: self.gateway(head.gateway).route,
        }
    }
}

// Where a message comes from.
fn peer(port: u16) -> SocketAddr {
    SocketAddr::new(IpAddr::V4(Ipv4Addr::new(10, 0, 0, 1)), port)
}

/// Puts the line for each time and message, which come from one port after another.
pub fn put_messages<K: Known>(alloc: Global, known: &mut K, lines: &[&str], out: &mut String) {
    let mut port = 1700u16;
    for line in lines {
        if put_line(alloc, known, port, line, out) {
            port = port.wrapping_add(1);
        }
        put(out, "\n");
    }
}

// Puts what a time and a message become. Whether they are one that is read.
fn put_line<K: Known>(
    alloc: Global,
    known: &mut K,
    port: u16,
    line: &str,
    out: &mut String,
) -> bool {
    let (now, message) = line.split_once(" ").unwrap_or(("0", line));
    let (digits, text) = message.split_once(" ").unwrap_or((message, ""));
    let Ok(mut bytes) = hex::decode(alloc, digits) else {
        put(out, line);
        return false;
    };
    let _ = bytes.extend_from_slice(bytes_of(alloc, text, "").as_slice());
    match read_message(bytes.as_slice()) {
        Ok(message) => {
            put_ack(alloc, &message.head(), out);
            let now = now.parse::<u64>().unwrap_or(0);
            put_became(alloc, &known.take(alloc, &message, now, port), out);
            true
        }
        Err(fault) => {
            show(out, fault);
            false
        }
    }
}

// Puts what acknowledges a message.
fn put_ack(alloc: Global, head: &Head, out: &mut String) {
    match head.ack() {
        Some(ack) => put_hex(alloc, out, &ack),
        None => put(out, "-"),
    }
}

// Puts what a message has become.
fn put_became(alloc: Global, became: &Became, out: &mut String) {
    if !became.is_noted {
        put(out, " no memory");
    }
    match &became.taken {
        Ok(Taken::Handed(handed, _)) => put_handed(alloc, handed, out),
        Ok(Taken::Asked) => put_route(became.route, out),
        Ok(Taken::Told(outcome)) => {
            let _ = write!(out, " {outcome:?}");
        }
        Err(fault) => put_fault(*fault, out),
    }
}

// Puts where downlinks of a gateway go.
fn put_route(route: Option<Route>, out: &mut String) {
    if let Some(route) = route {
        put(out, " asked ");
        show(out, route.addr);
        put(out, " ");
        show(out, route.version);
    }
}

// Puts datagrams, and the numbers of the items left out.
fn put_handed(alloc: Global, handed: &Handed, out: &mut String) {
    for datagram in &handed.datagrams {
        put(out, " ");
        put_hex(alloc, out, datagram.as_slice());
    }
    for item in &handed.left_out {
        put_fault(item.fault, out);
    }
}

// Puts the number of a fault.
fn put_fault(fault: ForwarderFault, out: &mut String) {
    put(out, " ");
    show(out, fault);
}
