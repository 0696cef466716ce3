//! Reads messages of packet forwarders as the server does, and puts a line for each: what acknowledges it, and what it becomes.
//!
//! A line of the text is a time in microseconds and a message in hex, with a space between; behind another space may stand the rest of the
//! message as a text, in which `\r`, `\n`, `\t` and `\xHH;` are a byte, and `\(N PIECE)` is a piece so many times. Any other line is a
//! remark, and is put again. The line for a message is its fault where it is not acknowledged, as `F3`; else the acknowledgement in hex, or
//! `-`, and behind it
//!
//! - of a PUSH_DATA, its datagrams in hex, with a space before each, and the numbers of the items left out;
//! - of a PULL_DATA, ` asked` with the address of its gateway's downlinks and the version of their messages;
//! - of a TX_ACK, what came of the downlink, as ` TooLate`;
//! - the fault of a body, as ` F6`.
//!
//! The first messages come from the address 10.0.0.1:1700, and each from the port above that of the one before it.

mod messages;

use crate::forwarders::messages::put_messages;
use ns_forwarder_socket::Gateways;
use std::alloc::Global;
use std::collections::hash_map::RandomState;
use std::io;
use std::random::RandomSource;
use worked_frames::put::put_line;

// Keys of a hash that are the same in each run.
#[derive(Clone, Copy)]
struct Noughts;

impl RandomSource for Noughts {
    fn fill_bytes(&self, buf: &mut [u8]) -> io::Result<()> {
        buf.fill(0);
        Ok(())
    }
}

// No gateway; None where there is no memory.
fn no_gateways(alloc: Global) -> Option<Gateways> {
    match RandomState::new(&Noughts) {
        Ok(keys) => Gateways::new(alloc, keys).ok(),
        Err(_) => None,
    }
}

/// Puts the line for each message of these lines.
pub fn make(alloc: Global, lines: &[&str], out: &mut String) {
    match no_gateways(alloc) {
        Some(mut gateways) => put_messages(alloc, &mut gateways, lines, out),
        None => put_line(out, "no memory"),
    }
}
