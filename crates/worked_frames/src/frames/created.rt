//! Frames as they are created.

use crate::frames::answers::Answers;
use crate::frames::ask::Ask;
use ns_creator::{CreateFault, DataCreator, JoinAcceptCreator, JoinRequestCreator, Keys};
use ns_roster::field::hex_bytes;
use ns_secure::{Dir, cipher_in_place};
use ns_types::{DevAddr, DevNonce, NetId};
use ns_views::{PhyView, view};

// The keys, behind `nwk`, `app` and `root`.
fn keys(ask: Ask) -> Keys {
    Keys {
        nwk: ask.key("nwk"),
        app: ask.key("app"),
        root: ask.key("root"),
    }
}

/// Puts what was made, or the fault and how many bytes are needed where it tells.
pub fn put_made(made: Result<&[u8], CreateFault>, out: &mut Answers) {
    match made {
        Ok(frame) => out.hex(frame),
        Err(fault) => {
            out.fault("C", fault.number());
            if let CreateFault::BufferTooShort { need } = fault {
                out.number(need as u64);
            }
        }
    }
}

/// nwk, app, dir, confirmed, addr, flags, counter, fopts, port, payload, room: the frame, or the fault, and behind it the buffer, which
/// was as `room` says.
pub fn data(ask: Ask, buf: &mut [u8], out: &mut Answers) {
    let (dir, flags) = (ask.dir(), ask.number("flags"));
    let (mut fopts, mut payload) = ([0; 256], [0; 256]);
    if flags % 16 == 0 && (dir == Dir::Up || flags / 64 % 2 == 0) {
        let creator = DataCreator {
            dir,
            confirmed: ask.value("confirmed") == "yes",
            addr: ask.addr(),
            flags,
            counter: ask.number("counter"),
            fopts: ask.bytes("fopts", &mut fopts),
            port: ask.option("port"),
            payload: ask.bytes("payload", &mut payload),
        };
        put_made(creator.build_into(&keys(ask), buf), out);
        out.hex(buf);
    }
}

/// nwk, addr, counter, room: an acknowledgement, as `data`.
pub fn acknowledgement(ask: Ask, buf: &mut [u8], out: &mut Answers) {
    let ack = DataCreator::acknowledgement(ask.addr(), ask.number("counter"));
    put_made(ack.build_into(&keys(ask), buf), out);
    out.hex(buf);
}

/// root, join_eui, dev_eui, nonce, room: as `data`.
pub fn join_request(ask: Ask, buf: &mut [u8], out: &mut Answers) {
    let request = JoinRequestCreator {
        join_eui: ask.join_eui(),
        dev_eui: ask.dev_eui(),
        nonce: DevNonce(ask.number("nonce")),
    };
    put_made(request.build_into(&keys(ask), buf), out);
    out.hex(buf);
}

/// root, join_nonce, net_id, addr, dl_settings, rx_delay, cflist, room: as `data`.
pub fn join_accept(ask: Ask, buf: &mut [u8], out: &mut Answers) {
    let net_id = ask.number("net_id");
    if net_id < 16_777_216 {
        let accept = JoinAcceptCreator {
            join_nonce: ask.array("join_nonce"),
            net_id: NetId(net_id),
            addr: ask.addr(),
            dl_settings: ask.number("dl_settings"),
            rx_delay: ask.number("rx_delay"),
            cflist: hex_bytes(ask.value("cflist")),
        };
        put_made(accept.build_into(&keys(ask), buf), out);
        out.hex(buf);
    }
}

// Whether an uplink of this address, with counter 2 and on port 7 if any, reads back to this payload under the keys.
fn reads_back(frame: &[u8], keys: &Keys, addr: DevAddr, payload: &[u8]) -> bool {
    let Ok(PhyView::Frame(read)) = view(frame) else {
        return false;
    };
    let mut opened = [0; 242];
    let sealed = read.payload();
    let opened = &mut opened[..sealed.len()];
    opened.copy_from_slice(sealed);
    cipher_in_place(opened, &keys.app, Dir::Up, addr, 2);
    read.dev_addr() == addr
        && read.fcnt16() == 2
        && read.fport().unwrap_or(7) == 7
        && &*opened == payload
}

/// nwk, app, addr: how many of the lengths of an uplink without options, 12 to 255 bytes, read back to their plain payload.
pub fn each_length(ask: Ask, out: &mut Answers) {
    let (keys, addr) = (keys(ask), ask.addr());
    let bytes = [0x5a; 242];
    let mut buf = [0; 255];
    let mut count = 0u8;
    for size in 12..256usize {
        let payload = &bytes[..size.saturating_sub(13)];
        let creator = DataCreator {
            dir: Dir::Up,
            confirmed: false,
            addr,
            flags: 0,
            counter: 2,
            fopts: &[],
            port: if size > 12 { Some(7) } else { None },
            payload,
        };
        if let Ok(frame) = creator.build_into(&keys, &mut buf)
            && frame.len() == size
            && reads_back(frame, &keys, addr, payload)
        {
            count = count.saturating_add(1);
        }
    }
    out.number(u64::from(count));
}
