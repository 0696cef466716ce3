//! Texts and numbers as they stand in a file.

use ns_roster::field::hex_bytes;
use std::alloc::Global;

// What stands behind a backslash for a byte.
const ESCAPES: &[(&str, u8)] = &[("r", b'\r'), ("n", b'\n'), ("t", b'\t')];

// The byte that stands behind a backslash, and the text behind it.
fn escaped(part: &str) -> (u8, &str) {
    for (name, byte) in ESCAPES {
        if let Some(behind) = part.strip_prefix(*name) {
            return (*byte, behind);
        }
    }
    let (digits, behind) = part.split_once(";").unwrap_or(("", part));
    let byte = digits.strip_prefix("x").and_then(hex_bytes::<1>);
    (byte.unwrap_or([b'?'])[0], behind)
}

// Adds bytes.
fn put_bytes(bytes: &mut Vec<u8>, more: &[u8]) {
    let _ = bytes.extend_from_slice(more);
}

// Adds the bytes of a text in which `\r`, `\n`, `\t` and `\xHH;` are a byte.
fn add(bytes: &mut Vec<u8>, text: &str) {
    let mut rest = text;
    for _ in 0..text.len() {
        let Some((front, part)) = rest.split_once("\\") else {
            break;
        };
        let (byte, behind) = escaped(part);
        put_bytes(bytes, front.as_bytes());
        put_bytes(bytes, &[byte]);
        rest = behind;
    }
    put_bytes(bytes, rest.as_bytes());
}

// Adds a piece so many times, both of which stand behind `\(`: the text behind them.
fn add_repeated<'a>(bytes: &mut Vec<u8>, part: &'a str) -> &'a str {
    let (count, rest) = part.split_once(" ").unwrap_or(("0", part));
    let (piece, behind) = rest.split_once(")").unwrap_or((rest, ""));
    for _ in 0..count.parse::<u32>().unwrap_or(0) {
        add(bytes, piece);
    }
    behind
}

// Adds the bytes of a text in which `\(N PIECE)` is a piece so many times.
fn add_all(bytes: &mut Vec<u8>, text: &str) {
    let mut rest = text;
    for _ in 0..text.len() {
        let Some((front, part)) = rest.split_once("\\(") else {
            break;
        };
        add(bytes, front);
        rest = add_repeated(bytes, part);
    }
    add(bytes, rest);
}

/// The bytes of two texts, one behind the other, in which `\r`, `\n`, `\t` and `\xHH;` are a byte, and `\(N PIECE)` is a piece so many
/// times.
pub fn bytes_of(alloc: Global, first: &str, second: &str) -> Vec<u8> {
    let mut bytes = Vec::new(alloc);
    add_all(&mut bytes, first);
    add_all(&mut bytes, second);
    bytes
}

/// The EUI of 16 hex digits.
pub fn eui(digits: &str) -> u64 {
    hex_bytes::<8>(digits).map_or(0, u64::from_be_bytes)
}
