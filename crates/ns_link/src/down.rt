//! The datagram of a frame that a gateway is to send.

ghost use Rattle.std.specs.Prelude.{◌≡◌, ◌+◌, ◌≤◌, ◌<◌, ◌++◌, ◌↔◌, length, drop, IfOk, OnOk, OnErr, IsErrOf};
ghost use Rattle.ns_link.specs.Datagram.{down_datagram, down_header};
ghost use Rattle.ns_link.specs.declared.LinkFault.TheVariants.{Buffer};

use crate::LinkFault;
use crate::up::{HEADER, VERSION};
use ns_types::Target;

/// The kind of a downlink's datagram.
const DOWN: u8 = 0x81;

/// Writes the datagram of a frame, which has at most 255 bytes, to the front of `buf`, and lends that front. It is one call of
/// `write_down_into`, whose contract says what `buf` holds once the front is given up.
///
/// G7 where the buffer is shorter than 28 bytes and the frame's length together.
pub fn write_down<'a>(
    target: &Target,
    frame: &[u8],
    buf: &'a mut [u8],
) -> Result<&'a [u8], LinkFault>
    requires { length frame.now ≤ 255 }
    ensures written { IfOk result (λ front. front.now ≡ down_datagram target.now frame.now) }
    ensures refused { IsErrOf result Buffer ↔ length buf.old < 28 + length frame.now }
    ensures only { OnErr result (length buf.old < 28 + length frame.now) }
{
    let size = write_down_into(target, frame, buf)?;
    Ok(&buf[..size])
}

/// Writes the datagram of a frame, which has at most 255 bytes, to the front of `buf`, and says how long it is: 28 bytes and the
/// frame. The bytes behind it stay as they were.
///
/// G7 where the buffer is shorter than that, and then it is unchanged.
pub fn write_down_into(target: &Target, frame: &[u8], buf: &mut [u8]) -> Result<usize, LinkFault>
    requires { length frame.now ≤ 255 }
    ensures size { IfOk result (λ size. size ≡ 28 + length frame.now) }
    ensures written { OnOk result (buf.new ≡ down_datagram target.now frame.now ++ drop (28 + length frame.now) buf.old) }
    ensures refused { IsErrOf result Buffer ↔ length buf.old < 28 + length frame.now }
    ensures only { OnErr result (length buf.old < 28 + length frame.now) }
    ensures unchanged { OnErr result (buf.new ≡ buf.old) }
{
    let size = HEADER + frame.len();
    if buf.len() < size {
        return Err(LinkFault::Buffer);
    }
    let (front, _) = buf.split_at_mut(size);
    write_parts(target, frame, front);
    Ok(size)
}

// Writes the datagram to a buffer of its size.
fn write_parts(target: &Target, frame: &[u8], out: &mut [u8])
    requires most { length frame.now ≤ 255 }
    requires size { length out.old ≡ 28 + length frame.now }
    ensures { out.new ≡ down_datagram target.now frame.now }
{
    let (header, body) = out.split_at_mut(HEADER);
    header.copy_from_slice(&header_of(target, frame.len() as u8));
    body.copy_from_slice(frame);
}

// The bytes before a frame of n bytes.
fn header_of(target: &Target, n: u8) -> [u8; 28]
    ensures { result ≡ down_header target.now n }
{
    let [g0, g1, g2, g3, g4, g5, g6, g7] = target.gateway.0.to_be_bytes();
    let [m0, m1, m2, m3, m4, m5, m6, m7] = target.moment.to_be_bytes();
    let [f0, f1, f2, f3] = target.freq.to_be_bytes();
    [
        VERSION, DOWN, g0, g1, g2, g3, g4, g5, g6, g7, m0, m1, m2, m3, m4, m5, m6, m7, f0, f1, f2,
        f3, target.dr, 0, 0, 0, 0, n,
    ]
}
