//! Numbers and bytes at the end of a line.
ghost use Rattle.std.specs.Prelude.{◌≡◌, ◌+◌, ◌*◌, ◌≤◌, ◌++◌, ◌∷◌, [], length, decimal, IsAscii};
ghost use Rattle.std.specs.Int.{w32, w64, to_be_bytes};
ghost use Rattle.arrayvec.specs.ArrayString.{array_string_len};
ghost use Rattle.hex.specs.Hex.{encode_lower};

use crate::digits::{digits_of_byte, digits_of_eight, digits_of_four};
use arrayvec::ArrayString;
use itoa::Buffer;

/// The text of one line, without its line feed.
pub type Line = ArrayString<1024>;

// Puts a text of a fixed length, which is copied by a move or two.
#[inline(always)]
fn put_text<const N: usize>(line: &mut Line, text: &[u8; N])
    requires ascii { IsAscii text.now }
    requires room { array_string_len line.old + N ≤ 1024 }
    ensures bytes { line.new.bytes ≡ line.old.bytes ++ text.now }
    ensures len { array_string_len line.new ≡ array_string_len line.old + N }
{
    line.push_str(unsafe { str::from_utf8_unchecked(text) });
}

/// Puts a number in decimal, at most 20 digits, at the end of a line.
pub fn put_decimal(line: &mut Line, n: u64)
    requires { array_string_len line.old + 20 ≤ 1024 }
    ensures bytes { line.new.bytes ≡ line.old.bytes ++ decimal n }
    ensures len { array_string_len line.new ≤ array_string_len line.old + 20 }
{
    if n < 10 {
        put_text(line, &[b'0' + n as u8]);
        return;
    }
    let mut digits = Buffer::new();
    line.push_str(digits.format(n));
}

// Puts eight bytes in hex.
#[inline(always)]
fn put_eight(line: &mut Line, bytes: &[u8])
    requires room { array_string_len line.old + 16 ≤ 1024 }
    requires eight { length bytes.now ≡ 8 }
    ensures bytes { line.new.bytes ≡ line.old.bytes ++ encode_lower bytes.now }
    ensures len { array_string_len line.new ≡ array_string_len line.old + 16 }
{
    put_text(line, &digits_of_eight(bytes));
}

// Puts four bytes in hex.
#[inline(always)]
fn put_four(line: &mut Line, bytes: &[u8])
    requires room { array_string_len line.old + 8 ≤ 1024 }
    requires four { length bytes.now ≡ 4 }
    ensures bytes { line.new.bytes ≡ line.old.bytes ++ encode_lower bytes.now }
    ensures len { array_string_len line.new ≡ array_string_len line.old + 8 }
{
    put_text(line, &digits_of_four(bytes));
}

// Puts a byte in hex.
#[inline(always)]
fn put_byte(line: &mut Line, byte: u8)
    requires { array_string_len line.old + 2 ≤ 1024 }
    ensures bytes { line.new.bytes ≡ line.old.bytes ++ encode_lower (byte ∷ []) }
    ensures len { array_string_len line.new ≡ array_string_len line.old + 2 }
{
    put_text(line, &digits_of_byte(byte));
}

// Puts fewer than four bytes, or more, in hex.
#[inline(always)]
fn put_few(line: &mut Line, bytes: &[u8])
    requires { array_string_len line.old + 2 * length bytes.now ≤ 1024 }
    ensures bytes { line.new.bytes ≡ line.old.bytes ++ encode_lower bytes.now }
    ensures len { array_string_len line.new ≡ array_string_len line.old + 2 * length bytes.now }
{
    for byte in bytes {
        put_byte(line, *byte);
    }
}

// Puts four bytes or more in hex.
#[inline(always)]
fn put_four_and_few(line: &mut Line, bytes: &[u8])
    requires room { array_string_len line.old + 2 * length bytes.now ≤ 1024 }
    requires four { 4 ≤ length bytes.now }
    ensures bytes { line.new.bytes ≡ line.old.bytes ++ encode_lower bytes.now }
    ensures len { array_string_len line.new ≡ array_string_len line.old + 2 * length bytes.now }
{
    put_four(line, &bytes[..4]);
    put_few(line, &bytes[4..]);
}

// Puts fewer than eight bytes, or more, in hex.
#[inline(always)]
fn put_rest(line: &mut Line, bytes: &[u8])
    requires { array_string_len line.old + 2 * length bytes.now ≤ 1024 }
    ensures bytes { line.new.bytes ≡ line.old.bytes ++ encode_lower bytes.now }
    ensures len { array_string_len line.new ≡ array_string_len line.old + 2 * length bytes.now }
{
    if bytes.len() < 4 {
        put_few(line, bytes);
    } else {
        put_four_and_few(line, bytes);
    }
}

/// Puts bytes in lower-case hex at the end of a line.
pub fn put_hex(line: &mut Line, bytes: &[u8])
    requires { array_string_len line.old + 2 * length bytes.now ≤ 1024 }
    ensures bytes { line.new.bytes ≡ line.old.bytes ++ encode_lower bytes.now }
    ensures len { array_string_len line.new ≡ array_string_len line.old + 2 * length bytes.now }
{
    let mut rest = bytes;
    'eights: while rest.len() >= 8 {
        put_eight(line, &rest[..8]);
        rest = &rest[8..];
    }
    put_rest(line, rest);
}

// Puts an identity of eight bytes in hex, the highest first.
pub(crate) fn put_identity(line: &mut Line, n: u64)
    requires { array_string_len line.old + 16 ≤ 1024 }
    ensures bytes { line.new.bytes ≡ line.old.bytes ++ encode_lower (to_be_bytes w64 n) }
    ensures len { array_string_len line.new ≡ array_string_len line.old + 16 }
{
    put_eight(line, &n.to_be_bytes());
}

// Puts an address in hex, the highest byte first.
pub(crate) fn put_address(line: &mut Line, n: u32)
    requires { array_string_len line.old + 8 ≤ 1024 }
    ensures bytes { line.new.bytes ≡ line.old.bytes ++ encode_lower (to_be_bytes w32 n) }
    ensures len { array_string_len line.new ≡ array_string_len line.old + 8 }
{
    put_four(line, &n.to_be_bytes());
}
