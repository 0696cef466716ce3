//! Numbers, truths and bytes at the end of a text.
ghost use Rattle.std.specs.Prelude.{◌≡◌, ◌+◌, ◌*◌, ◌≤◌, ◌++◌, ◌∷◌, [], ◌<◌, length, decimal, slice_index};
ghost use Rattle.std.specs.Int.{w32, w64, to_be_bytes};
ghost use Rattle.arrayvec.specs.ArrayString.{array_string_len};
ghost use Rattle.hex.specs.Hex.{encode_lower, lower_digits};
ghost use Rattle.ns_lines.specs.Text.{wide, address_text};
ghost use Rattle.ns_events.specs.Base64.{base64_text, symbols};
ghost use Rattle.ns_events.specs.Uplink.{flag_text, tenths_text};
ghost use Rattle.base64.specs.Rfc4648.{encode_group};

use arrayvec::ArrayString;
use itoa::Buffer;

/// The text of one uplink, without its line feed.
pub type Text = ArrayString<6400>;

const DIGITS: [u8; 16] = *b"0123456789abcdef";

const SYMBOLS: [u8; 64] = *b"ABCDEFGHIJKLMNOPQRSTUVWXYZabcdefghijklmnopqrstuvwxyz0123456789+/";

// Puts a number in decimal.
pub(crate) fn put_decimal(text: &mut Text, n: u64)
    requires { array_string_len text.old + 20 ≤ 6400 }
    ensures bytes { text.new.bytes ≡ text.old.bytes ++ decimal n }
    ensures len { array_string_len text.new ≤ array_string_len text.old + 20 }
{
    let mut digits = Buffer::new();
    text.push_str(digits.format(n));
}

// Puts what stands before a number of tenths, and that number.
#[tactic(auto, unfolding(crate::specs::Uplink::tenths_text))]
pub(crate) fn put_tenths(text: &mut Text, name: &str, n: &i16)
    requires { array_string_len text.old + length name.now + 42 ≤ 6400 }
    ensures bytes { text.new.bytes ≡ text.old.bytes ++ (name.now ++ tenths_text n.now) }
    ensures len { array_string_len text.new ≤ array_string_len text.old + length name.now + 42 }
{
    text.push_str(name);
    if *n < 0 {
        text.push_str("-");
    }
    let tenths = n.unsigned_abs();
    put_decimal(text, u64::from(tenths / 10));
    text.push_str(".");
    put_decimal(text, u64::from(tenths % 10));
}

// Puts what stands before a truth, and the truth.
pub(crate) fn put_flag(text: &mut Text, name: &str, flag: bool)
    requires { array_string_len text.old + length name.now + 5 ≤ 6400 }
    ensures bytes { text.new.bytes ≡ text.old.bytes ++ (name.now ++ flag_text flag) }
    ensures len { array_string_len text.new ≤ array_string_len text.old + length name.now + 5 }
{
    text.push_str(name);
    text.push_str(if flag { "true" } else { "false" });
}

// Puts what stands before a number, and the number.
pub(crate) fn put_number(text: &mut Text, name: &str, n: u64)
    requires { array_string_len text.old + length name.now + 20 ≤ 6400 }
    ensures bytes { text.new.bytes ≡ text.old.bytes ++ (name.now ++ decimal n) }
    ensures len { array_string_len text.new ≤ array_string_len text.old + length name.now + 20 }
{
    text.push_str(name);
    put_decimal(text, n);
}

// A digit's character.
fn digit(n: u8) -> char
    requires { n < 16 }
    ensures value { result ≡ slice_index lower_digits n }
    ensures ascii { result < 128 }
{
    char::from(DIGITS[n as usize])
}

// Puts a byte in hex.
#[tactic(auto, unfolding(hex::specs::Hex::encode_with))]
fn put_byte(text: &mut Text, byte: u8)
    requires { array_string_len text.old + 2 ≤ 6400 }
    ensures bytes { text.new.bytes ≡ text.old.bytes ++ encode_lower (byte ∷ []) }
    ensures len { array_string_len text.new ≡ array_string_len text.old + 2 }
{
    text.push(digit(byte / 16));
    text.push(digit(byte % 16));
}

// Puts bytes in lower-case hex.
pub(crate) fn put_hex(text: &mut Text, bytes: &[u8])
    requires { array_string_len text.old + 2 * length bytes.now ≤ 6400 }
    ensures bytes { text.new.bytes ≡ text.old.bytes ++ encode_lower bytes.now }
    ensures len { array_string_len text.new ≡ array_string_len text.old + 2 * length bytes.now }
{
    for byte in bytes {
        put_byte(text, *byte);
    }
}

// Puts an identity in hex, the highest byte first.
#[tactic(auto, unfolding(ns_lines::specs::Text::wide))]
pub(crate) fn put_identity(text: &mut Text, n: u64)
    requires { array_string_len text.old + 16 ≤ 6400 }
    ensures bytes { text.new.bytes ≡ text.old.bytes ++ wide n }
    ensures len { array_string_len text.new ≡ array_string_len text.old + 16 }
{
    put_hex(text, &n.to_be_bytes());
}

// Puts an address in hex, the highest byte first.
#[tactic(auto, unfolding(ns_lines::specs::Text::address_text))]
pub(crate) fn put_address(text: &mut Text, n: u32)
    requires { array_string_len text.old + 8 ≤ 6400 }
    ensures bytes { text.new.bytes ≡ text.old.bytes ++ address_text n }
    ensures len { array_string_len text.new ≡ array_string_len text.old + 8 }
{
    put_hex(text, &n.to_be_bytes());
}

// The character of six bits.
fn symbol(n: u8) -> char
    requires { n < 64 }
    ensures value { result ≡ slice_index symbols n }
    ensures ascii { result < 128 }
{
    char::from(SYMBOLS[n as usize])
}

// Puts the character of six bits.
fn put_symbol(text: &mut Text, n: u8)
    requires six_bits { n < 64 }
    requires room { array_string_len text.old + 1 ≤ 6400 }
    ensures bytes { text.new.bytes ≡ text.old.bytes ++ slice_index symbols n ∷ [] }
    ensures len { array_string_len text.new ≡ array_string_len text.old + 1 }
{
    text.push(symbol(n));
}

// Puts three bytes as four symbols.
fn put_group(text: &mut Text, a: u8, b: u8, c: u8)
    requires { array_string_len text.old + 4 ≤ 6400 }
    ensures bytes { text.new.bytes ≡ text.old.bytes ++ encode_group symbols a b c }
    ensures len { array_string_len text.new ≡ array_string_len text.old + 4 }
{
    put_symbol(text, a / 4);
    put_symbol(text, a % 4 * 16 + b / 16);
    put_symbol(text, b % 16 * 4 + c / 64);
    put_symbol(text, c % 64);
}

// Puts the last bytes, fewer than three, with their padding.
#[tactic(auto, unfolding(crate::specs::Base64::base64_text, base64::specs::Rfc4648::encode_symbols))]
fn put_end(text: &mut Text, rest: &[u8])
    requires few { length rest.now < 3 }
    requires room { array_string_len text.old + 4 ≤ 6400 }
    ensures bytes { text.new.bytes ≡ text.old.bytes ++ base64_text rest.now }
    ensures len { array_string_len text.new ≤ array_string_len text.old + 4 }
{
    match rest {
        [a, b] => {
            put_symbol(text, *a / 4);
            put_symbol(text, *a % 4 * 16 + *b / 16);
            put_symbol(text, *b % 16 * 4);
            text.push_str("=");
        }
        [a] => {
            put_symbol(text, *a / 4);
            put_symbol(text, *a % 4 * 16);
            text.push_str("==");
        }
        _ => {}
    }
}

// Puts bytes in base64.
pub(crate) fn put_base64(text: &mut Text, bytes: &[u8])
    requires { array_string_len text.old + 2 * length bytes.now + 4 ≤ 6400 }
    ensures bytes { text.new.bytes ≡ text.old.bytes ++ base64_text bytes.now }
    ensures len { array_string_len text.new ≤ array_string_len text.old + 2 * length bytes.now + 4 }
{
    let groups = bytes.len() / 3;
    for i in 0..groups {
        put_group(text, bytes[3 * i], bytes[3 * i + 1], bytes[3 * i + 2]);
    }
    put_end(text, &bytes[3 * groups..]);
}
