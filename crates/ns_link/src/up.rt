//! The datagram of a frame that a gateway heard.

ghost use Rattle.std.specs.Prelude.{◌≡◌, ◌≤◌, ℕ, List, length, Ok, IfOk};
ghost use Rattle.ns_types.specs.declared.heard.Heard.{Heard};
ghost use Rattle.ns_link.specs.Datagram.{IsUpDatagram, datagram_of, heard_of};

use crate::LinkFault;
use ns_types::{GatewayId, Heard, array_at};
use std::marker::Model;

/// How many bytes stand before the frame.
pub(crate) const HEADER: usize = 28;
/// The layout's version.
pub(crate) const VERSION: u8 = 0x01;
/// The kind of an uplink's datagram.
const UP: u8 = 0x01;
/// The band, in Hz (EU868).
const LOWEST_FREQUENCY: u32 = 863_000_000;

const HIGHEST_FREQUENCY: u32 = 870_000_000;
/// The highest data rate (EU868).
const HIGHEST_DATA_RATE: u8 = 7;

/// A frame and how a gateway heard it, lent from the bytes of a datagram. A contract sees the two as a pair.
#[derive(Drop)]
pub struct Datagram<'a> {
    heard: Heard,
    frame: &'a [u8],
}

impl<'a> Model for Datagram<'a> {
    ghost Value = { Heard × List ℕ };

    ghost view = { λ d. (d.heard, d.frame.now) };
}

impl<'a> Datagram<'a> {
    /// How the frame was heard.
    pub fn heard(&self) -> Heard
        ensures { result ≡ self.now.0 }
    {
        self.heard
    }

    /// The frame, which is bytes 28 onwards of the datagram.
    pub fn frame(&self) -> &'a [u8]
        ensures { result.now ≡ self.now.1 }
    {
        self.frame
    }
}

/// Reads an uplink's datagram: exactly the bytes of the layout are taken. Of other bytes it gives the first fault in the order
/// of the numbers: G1 fewer than 28 bytes, G2 the version, G3 the kind, G4 the length, G5 the frequency, G6 the data rate.
pub fn read_datagram(bytes: &[u8]) -> Result<Datagram<'_>, LinkFault>
    ensures gives { result ≡ datagram_of bytes.now }
    ensures found { IfOk result (λ d. IsUpDatagram bytes.now d.0 d.1) }
    ensures only { (heard : Heard) (frame : List ℕ) → IsUpDatagram bytes.now heard frame → result ≡ Ok (heard, frame) }
{
    if bytes.len() < HEADER {
        return Err(LinkFault::Short);
    }
    if bytes[0] != VERSION {
        return Err(LinkFault::Version);
    }
    if bytes[1] != UP {
        return Err(LinkFault::Kind);
    }
    if bytes.len() != HEADER + usize::from(bytes[27]) {
        return Err(LinkFault::Length);
    }
    let heard = heard_of(bytes);
    if heard.freq < LOWEST_FREQUENCY || heard.freq > HIGHEST_FREQUENCY {
        return Err(LinkFault::Frequency);
    }
    if heard.dr > HIGHEST_DATA_RATE {
        return Err(LinkFault::DataRate);
    }
    let frame = &bytes[HEADER..];
    Ok(Datagram { heard, frame })
}

// How a datagram says that its frame was heard.
fn heard_of(bytes: &[u8]) -> Heard
    requires { 28 ≤ length bytes.now }
    ensures { result ≡ heard_of bytes.now }
{
    Heard {
        gateway: GatewayId(u64::from_be_bytes(array_at(bytes, 2))),
        moment: u64::from_be_bytes(array_at(bytes, 10)),
        freq: u32::from_be_bytes(array_at(bytes, 18)),
        dr: bytes[22],
        rssi: u16::from_be_bytes(array_at(bytes, 23)).cast_signed(),
        snr: u16::from_be_bytes(array_at(bytes, 25)).cast_signed(),
    }
}
