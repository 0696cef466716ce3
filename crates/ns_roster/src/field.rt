//! JSON texts and the fields of their objects. A field that is missing, null or of another kind is None.

ghost use Rattle.std.specs.Prelude.{◌≡◌, IfOk, option_map, string_bytes};
ghost use Rattle.std.specs.Int.{w64, from_be_bytes};
ghost use Rattle.serde_json.specs.View.{view, items_view};
ghost use Rattle.ns_roster.specs.Field.{value_of, is_missing, whole_at, text_at, list_at, without_0x, hex_bytes, hex_number};

use hex::FromHex;
use ns_types::NetId;
use serde_json::Value;
use std::alloc::{AllocError, Global};

/// The JSON value of the bytes, or None where they are not UTF-8, not JSON, or nest deeper than 127.
pub fn value_of(alloc: Global, bytes: &[u8]) -> Result<Option<Value>, AllocError>
    ensures { IfOk result (λ v. option_map view v ≡ value_of bytes.now) }
{
    match Value::from_slice(alloc, bytes) {
        Ok(value) => Ok(Some(value)),
        Err(error) => {
            if error.is_memory() {
                Err(AllocError)
            } else {
                Ok(None)
            }
        }
    }
}

/// Whether nothing stands at a key: it is missing or null.
pub fn is_missing(value: &Value, key: &str) -> bool
    ensures { result ≡ is_missing key.now (view value.now) }
{
    match value.get(key) {
        Some(found) => found.is_null(),
        None => true,
    }
}

/// The whole number from 0 to 2^64 - 1 at a key.
pub fn whole_at(value: &Value, key: &str) -> Option<u64>
    ensures { result ≡ whole_at key.now (view value.now) }
{
    value.get(key).and_then(Value::as_u64)
}

/// The text at a key.
pub fn text_at<'a>(value: &'a Value, key: &str) -> Option<&'a str>
    ensures { option_map (λ s. s.now) result ≡ text_at key.now (view value.now) }
{
    value.get(key).and_then(Value::as_str)
}

/// The list at a key.
pub fn list_at<'a>(value: &'a Value, key: &str) -> Option<&'a Vec<Value>>
    ensures { option_map (λ v. items_view v.now.items) result ≡ list_at key.now (view value.now) }
{
    value.get(key).and_then(Value::as_array)
}

// The text without a 0x before it.
fn without_0x(text: &str) -> &[u8]
    ensures { result.now ≡ without_0x text.now }
{
    let bytes = text.as_bytes();
    if bytes.len() >= 2 && bytes[0] == b'0' && bytes[1] == b'x' {
        &bytes[2..]
    } else {
        bytes
    }
}

/// The N bytes that a text of 2 N hex digits spells, in either case, with or without 0x before them.
pub fn hex_bytes<const N: usize>(text: &str) -> Option<[u8; N]>
    ensures { result ≡ hex_bytes N text.now }
{
    <[u8; N]>::from_hex(without_0x(text)).ok()
}

/// The hex of an EUI, the highest byte first, in lower case. It is read back.
pub fn eui_text(alloc: Global, eui: u64) -> Result<String, AllocError>
    ensures text { IfOk result (λ s. string_bytes s ≡ hex_number 8 eui) }
    ensures reads_back { option_map (from_be_bytes w64) (hex_bytes 8 (hex_number 8 eui)) ≡ Some eui }
{
    hex::encode(alloc, eui.to_be_bytes())
}

/// The hex of the low 24 bits of a NetID, the highest byte first, in lower case.
pub fn net_id_text(alloc: Global, net_id: NetId) -> Result<String, AllocError>
    ensures { IfOk result (λ s. string_bytes s ≡ hex_number 3 net_id.0) }
{
    hex::encode(alloc, &net_id.0.to_be_bytes()[1..])
}
