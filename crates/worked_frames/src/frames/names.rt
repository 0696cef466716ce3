//! Addresses, window names, tickets, and copies of a frame.

use crate::frames::answers::Answers;
use crate::frames::ask::Ask;
use ns_types::{
    GatewayId, Heard, NetId, Ticket, WindowName, addr_of, best, rx1, shard_of, shard_of_addr,
};

/// net_id, dev_eui, slot: the DevAddr, and the shards of the DevEUI and of that.
pub fn address(ask: Ask, out: &mut Answers) {
    let (net_id, slot, eui) = (ask.number("net_id"), ask.number("slot"), ask.dev_eui());
    if net_id < 16_777_216 && slot <= 2_097_151 {
        let addr = addr_of(NetId(net_id), eui, slot);
        out.hex(&addr.0.to_be_bytes());
        out.number(u64::from(shard_of(eui)));
        out.number(u64::from(shard_of_addr(addr)));
    }
}

/// dev_eui, session, fcnt, round: whether the window is the first of its uplink.
pub fn window(ask: Ask, out: &mut Answers) {
    let name = WindowName {
        eui: ask.dev_eui(),
        session: ask.number("session"),
        fcnt: ask.number("fcnt"),
        round: ask.number("round"),
    };
    out.either(name.is_first(), "first", "later");
}

/// bytes: the JoinEUI, the DevEUI, the DevNonce and the transaction of a ticket.
pub fn ticket(ask: Ask, out: &mut Answers) {
    let ticket = Ticket(ask.array("bytes"));
    out.hex(&ticket.join_eui().0.to_be_bytes());
    out.hex(&ticket.dev_eui().0.to_be_bytes());
    out.number(u64::from(ticket.nonce().0));
    out.number(u64::from(ticket.transaction()));
}

// A copy, behind `gateway`, `moment`, `freq`, `dr`, `rssi` and `snr`.
fn heard(ask: Ask) -> Heard {
    Heard {
        gateway: GatewayId(u64::from_be_bytes(ask.array("gateway"))),
        moment: ask.number("moment"),
        freq: ask.number("freq"),
        dr: ask.number("dr"),
        rssi: ask.number("rssi"),
        snr: ask.number("snr"),
    }
}

/// gateway, moment, freq, dr, rssi, snr, offset, delay: gateway, moment, frequency and data rate of the first receive window.
pub fn first_window(ask: Ask, out: &mut Answers) {
    let target = rx1(&heard(ask), ask.number("offset"), ask.number("delay"));
    out.hex(&target.gateway.0.to_be_bytes());
    out.number(target.moment);
    out.number(u64::from(target.freq));
    out.number(u64::from(target.dr));
}

/// gateway, moment, freq, dr, rssi, snr: which of the copies so far is the best, counted from 0.
pub fn copy(ask: Ask, copies: &mut Vec<Heard>, out: &mut Answers) {
    if copies.push(heard(ask)).is_ok() {
        out.number(best(copies.as_slice()) as u64);
    }
}
