//! Frames and datagrams, and the fronts and changes of their bytes.

use crate::frames::answers::Answers;
use crate::frames::ask::Ask;
use crate::frames::{datagrams, views};

// Puts what becomes of bytes as a frame, or as a datagram, and gives the parts.
fn put(ask: Ask, bytes: &mut [u8], out: &mut Answers) -> Answers {
    if ask.value("as") == "frame" {
        views::put(bytes, out)
    } else {
        datagrams::put(bytes, out)
    }
}

/// as, bytes: what becomes of the bytes as a `frame` or as a `datagram`, and the parts.
pub fn read(ask: Ask, bytes: &mut [u8], out: &mut Answers) {
    let parts = put(ask, bytes, out);
    out.words_of(&parts);
}

/// as, bytes: what becomes of each front of the bytes, from that of no bytes to all of them.
pub fn fronts(ask: Ask, bytes: &mut [u8], out: &mut Answers) {
    for len in 0..=bytes.len() {
        put(ask, &mut bytes[..len], out);
    }
}

// A byte replaced by 00 and by ff, and each of its bits flipped, the lowest first.
fn changes_of(byte: u8) -> [u8; 10] {
    [
        0x00,
        0xff,
        byte ^ 0x01,
        byte ^ 0x02,
        byte ^ 0x04,
        byte ^ 0x08,
        byte ^ 0x10,
        byte ^ 0x20,
        byte ^ 0x40,
        byte ^ 0x80,
    ]
}

/// as, bytes: for each byte a line, of what becomes of the bytes with that one replaced by 00 and by ff, and with each of its bits
/// flipped, the lowest first.
pub fn changes(ask: Ask, bytes: &mut [u8], out: &mut Answers) {
    for at in 0..bytes.len() {
        out.begin("=");
        let byte = bytes[at];
        for change in changes_of(byte) {
            bytes[at] = change;
            put(ask, bytes, out);
        }
        bytes[at] = byte;
    }
}
