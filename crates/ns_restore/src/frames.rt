//! Frames that nobody sent: a call is made with them where the tables keep no frame of their own.

use ns_calls::{DataFrame, JoinAccept, JoinAns, Outcome};
use ns_checkpoint::DeviceTable;
use ns_creator::{DataCreator, Keys};
use ns_roster::Device;
use ns_secure::Dir;
use ns_types::{DevAddr, GatewayId, Heard, Key, Ticket};
use ns_views::{PhyView, view};

/// How such a frame was heard.
pub(crate) const HEARD: Heard = Heard {
    gateway: GatewayId(0),
    moment: 0,
    freq: 0,
    dr: 0,
    rssi: 0,
    snr: 0,
};

const ZEROS: [u8; 15] = [0; 15];

// The Join-Request of a device with a nonce and a MIC.
fn ticket(device: &Device, nonce: u16, mic: u8) -> Ticket {
    let [a, b, c, d, e, f, g, h] = device.join_eui.0.to_le_bytes();
    let [i, j, k, l, m, n, o, p] = device.eui.0.to_le_bytes();
    let [q, r] = nonce.to_le_bytes();
    Ticket([
        0, a, b, c, d, e, f, g, h, i, j, k, l, m, n, o, p, q, r, mic, 0, 0, 0,
    ])
}

/// A Join-Request with a nonce that is none of the open tickets. Anyone can choose the bytes of those.
pub(crate) fn unasked(device: &Device, nonce: u16, table: &DeviceTable) -> Ticket {
    let mut mic = 0;
    for _ in 0..table.tickets.len() {
        let made_up = ticket(device, nonce, mic);
        if !table.tickets.iter().any(|open| open.ticket == made_up) {
            break;
        }
        mic = mic.wrapping_add(1);
    }
    ticket(device, nonce, mic)
}

/// The answer of a join server that begins a session with these keys.
pub(crate) fn accepted(nwk: Key, app: Option<Key>) -> Outcome {
    Outcome::Success(JoinAns {
        accept: JoinAccept::Plain([0x20; 17]),
        nwk,
        app,
    })
}

/// An uplink without a payload. It has so many bytes of options, by which one attempt differs from another.
pub(crate) fn uplink(
    addr: DevAddr,
    nwk: Key,
    counter: u32,
    confirmed: bool,
    options: usize,
) -> Option<DataFrame> {
    let keys = Keys {
        nwk,
        app: nwk,
        root: nwk,
    };
    let creator = DataCreator {
        dir: Dir::Up,
        confirmed,
        addr,
        flags: 0,
        counter,
        fopts: &ZEROS[..options.min(15)],
        port: None,
        payload: &[],
    };
    let mut room = [0; 32];
    let Ok(frame) = creator.build_into(&keys, &mut room) else {
        return None;
    };
    match view(frame) {
        Ok(PhyView::Frame(data)) => Some(DataFrame::of(&data)),
        _ => None,
    }
}
