//! Frames as they are read (LoRaWAN L2 1.0.4, 4).

use crate::frames::answers::Answers;
use ns_views::{DataView, JoinView, PhyView, known_parts_mut, parts_mut, view};

// Puts the parts of a data frame: MHDR, DevAddr, FCtrl, FCnt, FOpts, FPort, FRMPayload and MIC. Whether they are the bytes, and all
// but the MIC are signed.
fn put_data(bytes: &[u8], frame: &DataView, out: &mut Answers) -> bool {
    out.all(&[
        bytes.get(..1).unwrap_or(&[]),
        &frame.dev_addr().0.to_le_bytes(),
        &[frame.fctrl()],
        &frame.fcnt16().to_le_bytes(),
        frame.fopts(),
    ]);
    match frame.fport() {
        Some(port) => out.hex(&[port]),
        None => out.word("none"),
    }
    out.hex(frame.payload());
    let is_signed = out.are(frame.signed());
    out.hex(&frame.mic().0);
    is_signed && out.are(bytes) && frame.bytes() == bytes
}

// Puts the parts of a Join-Request: MHDR, JoinEUI, DevEUI, DevNonce and MIC. Whether they are the bytes, and its ticket is.
fn put_join(bytes: &[u8], request: &JoinView, out: &mut Answers) -> bool {
    out.all(&[
        bytes.get(..1).unwrap_or(&[]),
        &request.join_eui().0.to_le_bytes(),
        &request.dev_eui().0.to_le_bytes(),
        &request.nonce().0.to_le_bytes(),
        &request.mic().0,
    ]);
    out.are(bytes) && out.are(&request.ticket().0)
}

/// Puts the kind of a frame, `up`, `confirmed` or `join`, or the fault, and gives the parts in the order of the frame. Where these are
/// not the bytes, or `parts_mut` takes them for something else, it puts `differs` too.
pub fn put(bytes: &mut [u8], out: &mut Answers) -> Answers {
    let mut parts = out.other();
    let is_lent = parts_mut(bytes, |_, _, payload| payload.len()).is_ok();
    let is_same = match view(bytes) {
        Ok(PhyView::Frame(frame)) => {
            out.either(frame.confirmed(), "confirmed", "up");
            put_data(bytes, &frame, &mut parts) && is_lent
        }
        Ok(PhyView::Join(request)) => {
            out.word("join");
            put_join(bytes, &request, &mut parts) && !is_lent
        }
        Err(fault) => {
            out.fault("V", fault.number());
            !is_lent
        }
    };
    if !is_same {
        out.word("differs");
    }
    parts
}

// Flips each bit of a payload, and gives the lengths of what is lent.
fn flip(header: &[u8], options: &[u8], payload: &mut [u8]) -> (usize, usize, usize) {
    for byte in payload.iter_mut() {
        *byte ^= 0xff;
    }
    (header.len(), options.len(), payload.len())
}

// Puts the lengths of the header, the options and the payload.
fn put_lengths(lengths: (usize, usize, usize), out: &mut Answers) {
    out.number(lengths.0 as u64);
    out.number(lengths.1 as u64);
    out.number(lengths.2 as u64);
}

/// bytes: the lengths of the header, the options and the payload, or the fault, and the bytes with each bit of the payload flipped. Where
/// they are a data frame, the same by its known parts, which flips them back.
pub fn parts(bytes: &mut [u8], out: &mut Answers) {
    match parts_mut(bytes, flip) {
        Ok(lengths) => put_lengths(lengths, out),
        Err(fault) => out.fault("V", fault.number()),
    }
    out.hex(bytes);
    if let Ok(PhyView::Frame(_)) = view(bytes) {
        let lengths = known_parts_mut(bytes, flip);
        put_lengths(lengths, out);
        out.hex(bytes);
    }
}
