//! Devices of one shard, of which two share each address, and their frames.

use crate::random::Random;
use ns_calls::{Call, DataFrame, JoinAccept, JoinAns, Outcome};
use ns_creator::{DataCreator, Keys};
use ns_roster::Roster;
use ns_secure::Dir;
use ns_types::{DevAddr, DevEui, GatewayId, Heard, Key, Ticket};
use ns_views::{PhyView, view};
use std::alloc::Global;
use std::sync::Arc;

/// The number of the shard.
pub const INDEX: u8 = 5;

/// The EUI of a device.
pub fn eui(device: usize) -> DevEui {
    DevEui(
        (device as u64)
            .wrapping_mul(16)
            .wrapping_add(u64::from(INDEX)),
    )
}

// A device of a roster, at a slot. Every third one has a last nonce.
fn put_device(alloc: Global, text: &mut String, device: usize, slot: usize) -> Option<()> {
    let last = if device % 3 == 2 {
        r#""last_nonce":3,"#
    } else {
        ""
    };
    let eui = eui(device).0;
    let line = format!(in alloc;
        r#"{{"dev_eui":"{eui:016x}","join_eui":"0102030401020304",{last}"slot":{slot}}}"#
    );
    text.push_str(line.ok()?.as_str()).ok()
}

/// A roster of these devices, each with its slot.
pub fn roster_of(alloc: Global, devices: &[(usize, usize)]) -> Option<Arc<Roster>> {
    let mut text = String::new(alloc);
    text.push_str(r#"{"version":2,"net_id":"000024","rx1_offset":0,"rx_delay":1,"devices":["#)
        .ok()?;
    let mut comma = "";
    for &(device, slot) in devices {
        text.push_str(comma).ok()?;
        put_device(alloc, &mut text, device, slot)?;
        comma = ",";
    }
    text.push_str("]}").ok()?;
    Arc::new(alloc, Roster::read(alloc, text.as_bytes()).ok()?).ok()
}

/// A roster of so many devices, of which two share each slot.
pub fn roster(alloc: Global, devices: usize) -> Option<Arc<Roster>> {
    let mut list = Vec::new(alloc);
    for device in 0..devices {
        list.push((device, device / 2)).ok()?;
    }
    roster_of(alloc, list.as_slice())
}

/// How a gateway heard a frame.
pub fn heard(random: &mut Random) -> Heard {
    Heard {
        gateway: GatewayId(u64::from(random.below(4))),
        moment: u64::from(random.below(1_000_000)),
        freq: 868_100_000,
        dr: 5,
        rssi: -300,
        snr: i16::from(random.below(4).to_le_bytes()[0]),
    }
}

/// The Join-Request of a device with a nonce.
pub fn ticket(device: usize, nonce: u16, mic: u8) -> Ticket {
    let [a, b, c, d, e, f, g, h] = eui(device).0.to_le_bytes();
    let [i, j] = nonce.to_le_bytes();
    Ticket([
        0, 4, 3, 2, 1, 4, 3, 2, 1, a, b, c, d, e, f, g, h, i, j, mic, 0, 0, 0,
    ])
}

// The key of a session, by the nonce of its join.
fn key(ticket: &Ticket) -> Key {
    let nonce = ticket.nonce().0.to_le_bytes();
    let eui = ticket.dev_eui().0.to_le_bytes();
    Key([
        eui[0], eui[1], nonce[0], nonce[1], 7, 7, 7, 7, 7, 7, 7, 7, 7, 7, 7, 7,
    ])
}

/// The answer to a Join-Request: it fails now and then, and has an AppSKey mostly.
pub fn outcome(random: &mut Random, ticket: &Ticket) -> Outcome {
    if random.percent(20) {
        return Outcome::Failed;
    }
    let nwk = key(ticket);
    Outcome::Success(JoinAns {
        accept: JoinAccept::Plain([0x20; 17]),
        nwk,
        app: if random.percent(70) { Some(nwk) } else { None },
    })
}

/// An uplink.
pub fn frame(
    addr: DevAddr,
    nwk: Key,
    counter: u32,
    confirmed: bool,
    payload: u8,
) -> Option<DataFrame> {
    let keys = Keys {
        nwk,
        app: nwk,
        root: nwk,
    };
    let creator = DataCreator {
        dir: Dir::Up,
        confirmed,
        addr,
        flags: 0,
        counter,
        fopts: &[],
        port: Some(1),
        payload: &[payload, 1, 2],
    };
    let mut room = [0; 32];
    let Ok(frame) = creator.build_into(&keys, &mut room) else {
        return None;
    };
    match view(frame) {
        Ok(PhyView::Frame(data)) => Some(DataFrame::of(&data)),
        _ => None,
    }
}

/// The call of an uplink.
pub fn uplink(random: &mut Random, frame: DataFrame) -> Call {
    Call::Uplink {
        frame,
        heard: heard(random),
    }
}
