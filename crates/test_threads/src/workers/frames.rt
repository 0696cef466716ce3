//! The frames that the gateways of these tests hear, and the responses of their join server.

use crate::written::text_of;
use ns_device::worked::{ANSWER, HEAD};
use std::alloc::Global;

/// A Join-Request of device 0d with nonce 1 and transaction 1.
pub const JOIN_1: [u8; 23] = [
    0, 4, 3, 2, 1, 4, 3, 2, 1, 0x0d, 0, 0, 0, 0, 0, 0, 0, 1, 0, 1, 0, 0, 0,
];

/// The same with nonce 2 and transaction 2.
pub const JOIN_2: [u8; 23] = [
    0, 4, 3, 2, 1, 4, 3, 2, 1, 0x0d, 0, 0, 0, 0, 0, 0, 0, 2, 0, 2, 0, 0, 0,
];

/// A Join-Request of the second device with nonce 50,000, whose transaction is over 2^31.
pub const JOIN_SECOND: [u8; 23] = [
    0, 4, 3, 2, 1, 4, 3, 2, 1, 0x0e, 0, 0, 0, 1, 0, 0, 0, 0x50, 0xc3, 0xfe, 0, 0, 0xff,
];

/// A Join-Request of device 0e, which the roster does not have.
pub const JOIN_0E: [u8; 23] = [
    0, 4, 3, 2, 1, 4, 3, 2, 1, 0x0e, 0, 0, 0, 0, 0, 0, 0, 1, 0, 1, 0, 0, 0,
];

/// A Join-Request of device 0f, which the roster does not have either.
pub const JOIN_0F: [u8; 23] = [
    0, 4, 3, 2, 1, 4, 3, 2, 1, 0x0f, 0, 0, 0, 0, 0, 0, 0, 1, 0, 1, 0, 0, 0,
];

/// The uplink of device 0d at counter 2, with the payload 74657374 on port 1.
pub const UP_2: [u8; 17] = [
    0x40, 0xf1, 0x7d, 0xbe, 0x49, 0, 2, 0, 1, 0x95, 0x43, 0x78, 0x76, 0x2b, 0x11, 0xff, 0x0d,
];

/// Its uplink at counter 3, confirmed, with the payload 55 on port 1, and those at counters 9 and 10; one of the latter is confirmed.
pub const UP_3: [u8; 14] = [
    0x80, 0xf1, 0x7d, 0xbe, 0x49, 0, 3, 0, 1, 0x70, 0xa8, 0x19, 0xf8, 0xeb,
];

pub const UP_9: [u8; 14] = [
    0x40, 0xf1, 0x7d, 0xbe, 0x49, 0, 9, 0, 1, 0xe5, 0x7a, 0xca, 0, 0x37,
];

pub const UP_10: [u8; 14] = [
    0x40, 0xf1, 0x7d, 0xbe, 0x49, 0, 0x0a, 0, 1, 0xa5, 0x58, 0x16, 0x71, 0xcc,
];

pub const UP_10_CONFIRMED: [u8; 14] = [
    0x80, 0xf1, 0x7d, 0xbe, 0x49, 0, 0x0a, 0, 1, 0xa5, 0xa9, 0x40, 0xb0, 2,
];

/// What the join server answers.
#[derive(Clone, Copy)]
pub enum Response {
    /// Nothing: no connection opens.
    Unopened,
    /// A response that is no JoinAns.
    Braces,
    /// A JoinAns to a transaction, whose Join-Accept ends with this byte, with so many spaces in front of its last byte.
    Joined(u32, u8, usize),
}

impl Response {
    /// Its bytes. None where no connection opens, or there is no memory.
    pub fn bytes(self, alloc: Global) -> Option<Vec<u8>> {
        match self {
            Response::Unopened => None,
            Response::Braces => with_body(alloc, "{}"),
            Response::Joined(transaction, last, spaces) => {
                let text = join_ans(alloc, transaction, last, spaces)?;
                with_body(alloc, text.as_str())
            }
        }
    }
}

// The worked JoinAns, to another transaction and with another Join-Accept.
fn join_ans(alloc: Global, transaction: u32, last: u8, spaces: usize) -> Option<String> {
    let (_, text) = ANSWER.split_once("01000000 ")?;
    let (front, rest) = text.split_once("0f\"")?;
    let (middle, _) = rest.split_once("1}")?;
    let spaces = " ".repeat(alloc, spaces).ok()?;
    format!(in alloc; "{front}{last:02x}\"{middle}{transaction}{spaces}}}").ok()
}

// A response of 200 with this body.
fn with_body(alloc: Global, body: &str) -> Option<Vec<u8>> {
    let length = body.len();
    let head = format!(in alloc; "HTTP/1.1 200 OK\r\nContent-Length: {length}\r\n\r\n").ok()?;
    text_of(alloc, &[head.as_str(), body]).ok()
}

/// The datagram of a frame that gateway a1 heard.
pub fn heard(alloc: Global, frame: &[u8]) -> Option<Vec<u8>> {
    let mut bytes = Vec::from_slice(alloc, &HEAD).ok()?;
    bytes.push(u8::try_from(frame.len()).ok()?).ok()?;
    bytes.extend_from_slice(frame).ok()?;
    Some(bytes)
}
