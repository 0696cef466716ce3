//! The datagram of a frame that a forwarder handed on.

ghost use Rattle.std.specs.Prelude.{◌≡◌, ◌≤◌, length, IfOk, Ok};
ghost use Rattle.ns_types.specs.Bytes.{AreBytes};
ghost use Rattle.ns_link.specs.Datagram.{IsUpDatagram, up_datagram, datagram_of};
ghost use Rattle.ns_forwarder.specs.Uplink.{HasRanges, IsOfBand, heard, heard_of, up_header};
ghost use Rattle.ns_forwarder.specs.Held.{item_view};

use crate::item::Item;
use ns_types::{GatewayId, Heard};
use std::alloc::{AllocError, Global};

/// How many bytes stand before the frame.
const HEADER: usize = 28;
/// The version of the layout, and the kind of an uplink's datagram.
const VERSION: u8 = 0x01;

const UP: u8 = 0x01;

impl Item {
    /// How a gateway heard the frame, at a moment by its clock.
    pub fn heard(&self, gateway: GatewayId, moment: u64) -> Heard
        ensures is { result ≡ heard_of (item_view self.now) gateway moment }
        ensures fits { HasRanges result }
    {
        heard(gateway.0, moment, self.freq, self.dr, self.rssi, self.snr)
    }

    /// The datagram of the frame, from a gateway at a moment by its clock. It is read back to what the item says. Refused only where
    /// memory ran out. What `read_push` gives meets the condition.
    pub fn datagram(
        &self,
        alloc: Global,
        gateway: GatewayId,
        moment: u64,
    ) -> Result<Vec<u8>, AllocError>
        requires { IsOfBand (item_view self.now) }
        ensures is { IfOk result
            (λ v. IsUpDatagram v.items (heard_of (item_view self.now) gateway moment) self.now.frame.items) }
        ensures reads_back { IfOk result
            (λ v. datagram_of v.items ≡ Ok (heard_of (item_view self.now) gateway moment, self.now.frame.items)) }
    {
        write(alloc, &self.heard(gateway, moment), self.frame.as_slice())
    }
}

// A frame that was heard so: each number fits its type.
fn heard(gateway: u64, moment: u64, freq: u32, dr: u8, rssi: i16, snr: i16) -> Heard
    ensures is { result ≡ heard gateway moment freq dr rssi snr }
    ensures fits { HasRanges result }
{
    Heard {
        gateway: GatewayId(gateway),
        moment,
        freq,
        dr,
        rssi,
        snr,
    }
}

// The datagram of a frame, heard so.
fn write(alloc: Global, heard: &Heard, frame: &[u8]) -> Result<Vec<u8>, AllocError>
    requires { length frame.now ≤ 255 }
    ensures { IfOk result
        (λ v. (v.items ≡ up_datagram heard.now frame.now) × AreBytes frame.now) }
{
    let mut bytes = Vec::with_capacity(alloc, HEADER + frame.len())?;
    bytes.extend_from_slice(header_of(heard, frame.len() as u8).as_slice())?;
    bytes.extend_from_slice(frame)?;
    Ok(bytes)
}

// The bytes before a frame of n bytes.
fn header_of(heard: &Heard, n: u8) -> [u8; 28]
    ensures { result ≡ up_header heard.now n }
{
    let [g0, g1, g2, g3, g4, g5, g6, g7] = heard.gateway.0.to_be_bytes();
    let [m0, m1, m2, m3, m4, m5, m6, m7] = heard.moment.to_be_bytes();
    let [f0, f1, f2, f3] = heard.freq.to_be_bytes();
    let [r0, r1] = heard.rssi.cast_unsigned().to_be_bytes();
    let [s0, s1] = heard.snr.cast_unsigned().to_be_bytes();
    [
        VERSION, UP, g0, g1, g2, g3, g4, g5, g6, g7, m0, m1, m2, m3, m4, m5, m6, m7, f0, f1, f2,
        f3, heard.dr, r0, r1, s0, s1, n,
    ]
}
