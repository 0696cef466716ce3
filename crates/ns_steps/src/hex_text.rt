//! Hex text read by a table.

ghost use Rattle.std.specs.Prelude.{◌≡◌, ◌≤◌, ◌*◌, length, vec_len, option_map, Ok, IfOk, OnOk, IsErr};
ghost use Rattle.std.specs.Bool.{OnTrue, OnFalse};
ghost use Rattle.std.specs.Result.{result_ok};
ghost use Rattle.hex.specs.Hex.{decode_of};
ghost use Rattle.ns_steps.specs.HexText.{digit_or_16};

use crate::hex_digits::sixteen_bytes;
use std::alloc::AllocError;

// The value of each byte as a hex digit, in either case, and 16 where it is none.
static DIGITS: [u8; 256] = [
    16, 16, 16, 16, 16, 16, 16, 16, 16, 16, 16, 16, 16, 16, 16, 16, 16, 16, 16, 16, 16, 16, 16, 16,
    16, 16, 16, 16, 16, 16, 16, 16, 16, 16, 16, 16, 16, 16, 16, 16, 16, 16, 16, 16, 16, 16, 16, 16,
    0, 1, 2, 3, 4, 5, 6, 7, 8, 9, 16, 16, 16, 16, 16, 16, 16, 10, 11, 12, 13, 14, 15, 16, 16, 16,
    16, 16, 16, 16, 16, 16, 16, 16, 16, 16, 16, 16, 16, 16, 16, 16, 16, 16, 16, 16, 16, 16, 16, 10,
    11, 12, 13, 14, 15, 16, 16, 16, 16, 16, 16, 16, 16, 16, 16, 16, 16, 16, 16, 16, 16, 16, 16, 16,
    16, 16, 16, 16, 16, 16, 16, 16, 16, 16, 16, 16, 16, 16, 16, 16, 16, 16, 16, 16, 16, 16, 16, 16,
    16, 16, 16, 16, 16, 16, 16, 16, 16, 16, 16, 16, 16, 16, 16, 16, 16, 16, 16, 16, 16, 16, 16, 16,
    16, 16, 16, 16, 16, 16, 16, 16, 16, 16, 16, 16, 16, 16, 16, 16, 16, 16, 16, 16, 16, 16, 16, 16,
    16, 16, 16, 16, 16, 16, 16, 16, 16, 16, 16, 16, 16, 16, 16, 16, 16, 16, 16, 16, 16, 16, 16, 16,
    16, 16, 16, 16, 16, 16, 16, 16, 16, 16, 16, 16, 16, 16, 16, 16, 16, 16, 16, 16, 16, 16, 16, 16,
    16, 16, 16, 16, 16, 16, 16, 16, 16, 16, 16, 16, 16, 16,
];

// The value of a hex digit, or 16 where the byte is none.
#[inline(always)]
fn digit(byte: u8) -> u8
    ensures { result ≡ digit_or_16 byte }
{
    DIGITS[byte as usize]
}

// Puts the bytes of a text of hex digits, which is twice as long as `out`, and says whether all were digits. It looks at all of them,
// without a branch for each.
fn decode_into(text: &[u8], out: &mut [u8]) -> bool
    requires { length text.now ≡ 2 * length out.old }
    ensures read { OnTrue result (decode_of text.now ≡ Ok out.new) }
    ensures refused { OnFalse result (IsErr (decode_of text.now)) }
{
    let mut seen = 0;
    'bytes: for i in 0..out.len() {
        let high = digit(text[2 * i]);
        let low = digit(text[2 * i + 1]);
        seen |= high | low;
        out[i] = high.wrapping_mul(16).wrapping_add(low);
    }
    seen < 16
}

// The same of at least 32 digits, by sixteen bytes at once. The last sixteen may begin in those before them.
fn decode_blocks(text: &[u8], out: &mut [u8]) -> bool
    requires twice { length text.now ≡ 2 * length out.old }
    requires long { 16 ≤ length out.old }
    ensures read { OnTrue result (decode_of text.now ≡ Ok out.new) }
    ensures refused { OnFalse result (IsErr (decode_of text.now)) }
{
    let last = out.len() - 16;
    'sixteens: for i in 0..out.len().div_ceil(16) {
        let at = (16 * i).min(last);
        let Some(bytes) = sixteen_bytes(&text[2 * at..2 * at + 32]) else {
            return false;
        };
        out[at..at + 16].copy_from_slice(&bytes);
    }
    true
}

// The same of any number of digits.
#[inline(always)]
fn decode_all(text: &[u8], out: &mut [u8]) -> bool
    requires { length text.now ≡ 2 * length out.old }
    ensures read { OnTrue result (decode_of text.now ≡ Ok out.new) }
    ensures refused { OnFalse result (IsErr (decode_of text.now)) }
{
    if out.len() < 16 {
        decode_into(text, out)
    } else {
        decode_blocks(text, out)
    }
}

// Makes room for n bytes at least.
fn stretch(room: &mut Vec<u8>, n: usize) -> Result<(), AllocError>
    ensures { OnOk result (n ≤ vec_len room.new) }
{
    if room.len() < n {
        room.resize(n, 0)?;
    }
    Ok(())
}

/// The datagram of a text of hex digits, in either case, lent from the front of `room`: none where the text is odd or a byte of it is no
/// digit. `NoMemory` (`AllocError`) where the room is too short and a growth was refused.
pub fn datagram<'a>(room: &'a mut Vec<u8>, text: &[u8]) -> Result<Option<&'a [u8]>, AllocError>
    ensures { IfOk result (λ found. option_map (λ bytes. bytes.now) found ≡ result_ok (decode_of text.now)) }
{
    if text.len() % 2 == 1 {
        return Ok(None);
    }
    let count = text.len() / 2;
    stretch(room, count)?;
    let (bytes, _) = room.as_mut_slice().split_at_mut(count);
    if !decode_all(text, bytes) {
        return Ok(None);
    }
    Ok(Some(&bytes[..]))
}
