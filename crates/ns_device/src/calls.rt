//! Calls of devices, as gateways and a join server bring them.

use crate::traffic::uplink_frame;
use ns_calls::{Call, JoinAccept, JoinAns, Outcome};
use ns_creator::Keys;
use ns_types::{DevEui, GatewayId, Heard, Key, NetId, Ticket, addr_of};

const NET: NetId = NetId(0x24);

// How gateway 1 to 16 heard a frame.
fn heard(gateway: u32) -> Heard {
    Heard {
        gateway: GatewayId(0xa0 + u64::from(gateway)),
        moment: 1_000_000,
        freq: 868_100_000,
        dr: 5,
        rssi: -400,
        snr: 5,
    }
}

/// The ticket of a device's Join-Request with this nonce.
pub fn ticket(device: u32, nonce: u32) -> Ticket {
    let eui = device.to_le_bytes();
    let nonce = nonce.to_le_bytes();
    Ticket([
        0, 4, 3, 2, 1, 4, 3, 2, 1, eui[0], eui[1], eui[2], eui[3], 0, 0, 0, 0, nonce[0], nonce[1],
        1, 0, 0, 0,
    ])
}

/// The Join-Request of a device with this nonce.
pub fn join(device: u32, nonce: u32, gateway: u32) -> Call {
    Call::Join {
        ticket: ticket(device, nonce),
        heard: heard(gateway),
    }
}

// The NwkSKey of the session of this nonce, and its AppSKey where it has one.
fn key(device: u32, nonce: u32) -> Key {
    let (eui, nonce) = (device.to_be_bytes(), nonce.to_be_bytes());
    Key([
        eui[0], eui[1], eui[2], eui[3], nonce[0], nonce[1], nonce[2], nonce[3], 9, 9, 9, 9, 9, 9,
        9, 9,
    ])
}

/// The join server's answer to it: the join succeeded, or failed. For odd nonces it has an AppSKey, and the Join-Accept a list of channels.
pub fn join_reply(device: u32, nonce: u32, is_success: bool) -> Call {
    let nwk = key(device, nonce);
    let (accept, app) = if nonce % 2 == 1 {
        (JoinAccept::WithChannels([0x20; 33]), Some(nwk))
    } else {
        (JoinAccept::Plain([0x20; 17]), None)
    };
    let outcome = if is_success {
        Outcome::Success(JoinAns { accept, nwk, app })
    } else {
        Outcome::Failed
    };
    Call::JoinReply {
        ticket: ticket(device, nonce),
        outcome,
    }
}

/// The device's uplink with this counter in the session of this nonce, as a gateway heard it. The device's slot is its number.
pub fn uplink(
    device: u32,
    nonce: u32,
    counter: u32,
    confirmed: bool,
    gateway: u32,
) -> Option<Call> {
    let nwk = key(device, nonce);
    let keys = Keys {
        nwk,
        app: nwk,
        root: nwk,
    };
    let addr = addr_of(NET, DevEui(u64::from(device)), device % 0x20_0000);
    let payload = [0x55, 0x56, 0x57, 0x58];
    Some(Call::Uplink {
        frame: uplink_frame(addr, counter, confirmed, &payload, &keys)?,
        heard: heard(gateway),
    })
}
