//! Datagrams of gateways, and messages to packet forwarders.

ghost use Rattle.std.specs.Prelude.{◌≤◌, length};

use crate::frames::answers::Answers;
use crate::frames::ask::Ask;
use ns_link::{read_datagram, write_down, write_down_into};
use ns_types::{GatewayId, Heard, Target};
use std::str;

// Puts the version and the kind, gateway, moment, frequency, data rate, RSSI and SNR.
fn put_heard(heard: &Heard, parts: &mut Answers) {
    parts.hex(&[0x01, 0x01]);
    parts.all(&[
        &heard.gateway.0.to_be_bytes(),
        &heard.moment.to_be_bytes(),
        &heard.freq.to_be_bytes(),
        &[heard.dr],
        &heard.rssi.to_be_bytes(),
        &heard.snr.to_be_bytes(),
    ]);
}

/// Puts `datagram` or the fault, and gives the parts: version and kind, gateway, moment, frequency, data rate, RSSI, SNR, length and frame.
/// Where these are not the bytes, it puts `differs` too.
pub fn put(bytes: &[u8], out: &mut Answers) -> Answers {
    let mut parts = out.other();
    match read_datagram(bytes) {
        Ok(datagram) => {
            out.word("datagram");
            let heard = datagram.heard();
            put_heard(&heard, &mut parts);
            let len = bytes.get(27).copied().unwrap_or(0);
            parts.all(&[&[len], datagram.frame()]);
            if !parts.are(bytes) || usize::from(len) != datagram.frame().len() {
                out.word("differs");
            }
        }
        Err(fault) => out.fault("G", fault.number()),
    }
    parts
}

/// gateway, moment, freq, dr, frame, room: the datagram to a gateway, or the fault, and behind it the buffer, which had so many bytes
/// ee. The same by `write_down_into`.
pub fn send(ask: Ask, frame: &[u8], out: &mut Answers) {
    if frame.len() <= 255 {
        let target = target(ask);
        send_lent(ask, &target, frame, out);
        send_into(ask, &target, frame, out);
    }
}

// Where a datagram goes.
fn target(ask: Ask) -> Target {
    Target {
        gateway: GatewayId(u64::from_be_bytes(ask.array("gateway"))),
        moment: ask.number("moment"),
        freq: ask.number("freq"),
        dr: ask.number("dr"),
    }
}

// Puts the datagram of a frame, or the fault, and behind it the buffer.
fn send_lent(ask: Ask, target: &Target, frame: &[u8], out: &mut Answers)
    requires { length frame.now ≤ 255 }
{
    let mut room = [0; 256];
    let lent = ask.bytes("room", &mut room);
    match write_down(target, frame, lent) {
        Ok(datagram) => out.hex(datagram),
        Err(fault) => out.fault("G", fault.number()),
    }
    out.hex(lent);
}

// The same by `write_down_into`, which tells the datagram's size.
fn send_into(ask: Ask, target: &Target, frame: &[u8], out: &mut Answers)
    requires { length frame.now ≤ 255 }
{
    let mut room = [0; 256];
    let into = ask.bytes("room", &mut room);
    match write_down_into(target, frame, into) {
        Ok(size) => out.number(size as u64),
        Err(fault) => out.fault("G", fault.number()),
    }
    out.hex(into);
}

/// version, token, gateway, moment, freq, dr, power, frame: the message that has a packet forwarder send a frame, its four bytes and its
/// JSON, or the fault.
pub fn pull_resp(ask: Ask, frame: &[u8], out: &mut Answers) {
    if frame.len() > 255 {
        return;
    }
    let (version, token, power) = (
        ask.number("version"),
        ask.array("token"),
        ask.number("power"),
    );
    match ns_forwarder::pull_resp(out.alloc(), version, token, &target(ask), power, frame) {
        Ok(message) => {
            let (head, json) = message.as_slice().split_at_checked(4).unwrap_or((&[], &[]));
            out.hex(head);
            out.word(str::from_utf8(json).unwrap_or("no text"));
        }
        Err(fault) => out.fault("F", fault.number()),
    }
}
