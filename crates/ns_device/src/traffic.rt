//! The calls of whole runs: each device asks to join, its join is answered, its uplinks are heard and closed.
//!
//! Devices are numbered from 0. The DevEUI and the slot of a device are its number, and all sessions have the same keys.

ghost use Rattle.std.specs.Prelude.{◌≡◌, ◌≤◌, ◌<◌};

use ns_calls::{Call, DataFrame, JoinAccept, JoinAns, Outcome};
use ns_creator::{DataCreator, Keys};
use ns_roster::{Roster, RosterFault};
use ns_secure::Dir;
use ns_types::{DevAddr, DevEui, GatewayId, Heard, Key, NetId, Ticket, WindowName, addr_of};
use ns_views::{PhyView, view};
use std::alloc::{AllocError, Global};

const NWK: Key = Key([
    0x44, 0x02, 0x42, 0x41, 0xed, 0x4c, 0xe9, 0xa6, 0x8c, 0x6a, 0x8b, 0xc0, 0x55, 0x23, 0x3f, 0xd3,
]);

const APP: Key = Key([
    0xec, 0x92, 0x58, 0x02, 0xae, 0x43, 0x0c, 0xa7, 0x7f, 0xd3, 0xdd, 0x73, 0xcb, 0x2c, 0xc5, 0x88,
]);

const NET: NetId = NetId(0x24);

/// A roster of this many devices, with the numbers from 0.
pub fn roster(alloc: Global, devices: u32) -> Result<Roster, RosterFault> {
    roster_of(alloc, 0, 1, devices)
}

/// A roster of this many devices, with the numbers from a first one on, by steps.
pub fn roster_of(
    alloc: Global,
    first: u32,
    step: u32,
    devices: u32,
) -> Result<Roster, RosterFault> {
    let text = roster_text(alloc, first, step, devices)?;
    Roster::read(alloc, text.as_bytes())
}

fn roster_text(alloc: Global, first: u32, step: u32, devices: u32) -> Result<String, AllocError> {
    let mut text = String::new(alloc);
    text.push_str(r#"{"version":1,"net_id":"000024","rx1_offset":0,"rx_delay":1,"devices":["#)?;
    let (mut device, mut comma) = (first, "");
    for _ in 0..devices {
        push_device(&mut text, alloc, comma, device)?;
        device = device.wrapping_add(step);
        comma = ",";
    }
    text.push_str("]}")?;
    Ok(text)
}

// Puts a device of a roster behind a comma.
fn push_device(
    text: &mut String,
    alloc: Global,
    comma: &str,
    device: u32,
) -> Result<(), AllocError> {
    text.push_str(comma)?;
    text.push_str(device_text(alloc, device)?.as_str())
}

// A device of a roster.
fn device_text(alloc: Global, device: u32) -> Result<String, AllocError> {
    format!(in alloc;
        r#"{{"dev_eui":"{device:016x}","join_eui":"0102030401020304","slot":{device}}}"#
    )
}

// How gateway 1 to 16 heard a frame.
fn heard(gateway: u8) -> Heard {
    Heard {
        gateway: GatewayId(0xa0 + u64::from(gateway)),
        moment: 1_000_000,
        freq: 868_100_000,
        dr: 5,
        rssi: -400,
        snr: i16::from(gateway),
    }
}

// The ticket of a device's Join-Request with this nonce.
fn ticket(device: u32, nonce: u16) -> Ticket {
    let eui = device.to_le_bytes();
    let nonce = nonce.to_le_bytes();
    Ticket([
        0, 4, 3, 2, 1, 4, 3, 2, 1, eui[0], eui[1], eui[2], eui[3], 0, 0, 0, 0, nonce[0], nonce[1],
        1, 0, 0, 0,
    ])
}

/// The keys of all sessions.
pub fn keys() -> Keys {
    Keys {
        nwk: NWK,
        app: APP,
        root: APP,
    }
}

/// The Join-Request of a device with this nonce.
pub fn join(device: u32, nonce: u16) -> Call {
    Call::Join {
        ticket: ticket(device, nonce),
        heard: heard(1),
    }
}

/// The join server's answer to it.
pub fn join_reply(device: u32, nonce: u16) -> Call {
    join_end(device, nonce, Outcome::Success(answer(NWK, Some(APP))))
}

/// A JoinAns with these session keys.
pub fn answer(nwk: Key, app: Option<Key>) -> JoinAns {
    JoinAns {
        accept: JoinAccept::Plain([0x20; 17]),
        nwk,
        app,
    }
}

/// What came of the Join-Request of a device with this nonce.
pub fn join_end(device: u32, nonce: u16, outcome: Outcome) -> Call {
    Call::JoinReply {
        ticket: ticket(device, nonce),
        outcome,
    }
}

/// The device's uplink with this counter, as a gateway heard it. None where the device has no slot.
pub fn uplink(device: u32, counter: u32, confirmed: bool, gateway: u8) -> Option<Call> {
    if device > 2_097_151 {
        return None;
    }
    let addr = addr_of(NET, DevEui(u64::from(device)), device);
    let payload = [
        0x55, 0x56, 0x57, 0x58, 0x59, 0x5a, 0x5b, 0x5c, 0x5d, 0x5e, 0x5f, 0x60,
    ];
    Some(Call::Uplink {
        frame: uplink_frame(addr, counter, confirmed, &payload, &keys())?,
        heard: heard(gateway),
    })
}

// The frame of an uplink on port 1, as a gateway sees it.
pub(crate) fn uplink_frame(
    addr: DevAddr,
    counter: u32,
    confirmed: bool,
    payload: &[u8],
    keys: &Keys,
) -> Option<DataFrame> {
    let creator = DataCreator {
        dir: Dir::Up,
        confirmed,
        addr,
        flags: 0,
        counter,
        fopts: &[],
        port: Some(1),
        payload,
    };
    let mut room = [0; 32];
    let Ok(frame) = creator.build_into(keys, &mut room) else {
        return None;
    };
    match view(frame) {
        Ok(PhyView::Frame(data)) => Some(DataFrame::of(&data)),
        _ => None,
    }
}

/// The closing of the window of a device's uplink.
pub fn closing(device: u32, session: u32, counter: u32) -> Call {
    closing_of(device, session, counter, 1)
}

/// The closing of a later window of it.
pub fn closing_of(device: u32, session: u32, counter: u32, round: u32) -> Call {
    Call::Close {
        window: WindowName {
            eui: DevEui(u64::from(device)),
            session,
            fcnt: counter,
            round,
        },
    }
}
