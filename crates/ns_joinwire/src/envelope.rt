//! Keys as a join server hands them over, and the Join-Accept.

ghost use Rattle.std.specs.Prelude.{◌≡◌, option_map};
ghost use Rattle.serde_json.specs.View.{view};
ghost use Rattle.ns_joinwire.specs.Parts.{field, label_of, envelope_of, is_plain, key_of, nwk_key, app_key, is_join_accept, frame_of, join_accept_of};
ghost use Rattle.ns_joinwire.specs.Private.Held.{envelope_view};

use ns_calls::JoinAccept;
use ns_roster::field::{hex_bytes, text_at};
use ns_types::Key;
use serde_json::Value;

// FType of a Join-Accept, and Major of LoRaWAN R1 (LoRaWAN L2 1.0.4, 4.2).
const JOIN_ACCEPT: u8 = 1;

const MAJOR: u8 = 0;

/// The value at a key. Null counts as missing.
pub(crate) fn field<'a>(value: &'a Value, key: &str) -> Option<&'a Value>
    ensures { option_map (λ v. view v.now) result ≡ field key.now (view value.now) }
{
    match value.get(key) {
        Some(found) => { if found.is_null() { None } else { Some(found) } }
        None => None,
    }
}

/// The text of a key, and the label of the key that wraps it, which is empty where none does (TS002, KeyEnvelope).
#[derive(Clone, Copy)]
pub(crate) struct KeyEnvelope<'a> {
    pub key: &'a str,
    pub label: &'a str,
}

impl<'a> KeyEnvelope<'a> {
    /// The envelope that a value describes, or None where a field is missing or wrong.
    pub fn of(value: &'a Value) -> Option<KeyEnvelope<'a>>
        ensures { option_map envelope_view result ≡ envelope_of (view value.now) }
    {
        let key = text_at(value, "AESKey")?;
        let label = label_of(value)?;
        Some(KeyEnvelope { key, label })
    }

    // Whether no key wraps this one.
    fn is_plain(&self) -> bool
        ensures { result ≡ is_plain (envelope_view self.now) }
    {
        self.label.is_empty()
    }

    /// The NwkSKey: it is not wrapped.
    pub fn nwk_key(&self) -> Option<Key>
        ensures { result ≡ nwk_key (envelope_view self.now) }
    {
        if self.is_plain() {
            key_of(self.key)
        } else {
            None
        }
    }
}

// The KEKLabel of an envelope, empty where there is none.
fn label_of(envelope: &Value) -> Option<&str>
    ensures { option_map (λ s. s.now) result ≡ label_of (view envelope.now) }
{
    match field(envelope, "KEKLabel") {
        Some(label) => label.as_str(),
        None => Some(""),
    }
}

// The key of a text of 16 bytes in hex.
fn key_of(text: &str) -> Option<Key>
    ensures { result ≡ key_of text.now }
{
    hex_bytes::<16>(text).map(Key)
}

/// The AppSKey, which there is where an envelope came and is not wrapped; None where it is no key.
pub(crate) fn app_key(envelope: Option<KeyEnvelope<'_>>) -> Option<Option<Key>>
    ensures { result ≡ app_key (option_map envelope_view envelope.entry) }
{
    match envelope {
        Some(envelope) => {
            if envelope.is_plain() {
                key_of(envelope.key).map(Some)
            } else {
                Some(None)
            }
        }
        None => Some(None),
    }
}

// Whether a frame's first byte is that of a Join-Accept.
fn is_join_accept(frame: &[u8]) -> bool
    ensures { result ≡ is_join_accept frame.now }
{
    match frame.first() {
        Some(mhdr) => mhdr / 32 == JOIN_ACCEPT && mhdr % 4 == MAJOR,
        None => false,
    }
}

// A frame in hex: 17 bytes, or 33 with a CFList.
fn frame_of(text: &str) -> Option<JoinAccept>
    ensures { result ≡ frame_of text.now }
{
    match hex_bytes::<17>(text) {
        Some(plain) => JoinAccept::of(&plain),
        None => JoinAccept::of(&hex_bytes::<33>(text)?),
    }
}

/// The Join-Accept of a text.
pub(crate) fn join_accept_of(text: &str) -> Option<JoinAccept>
    ensures { result ≡ join_accept_of text.now }
{
    let frame = frame_of(text)?;
    if is_join_accept(frame.as_slice()) {
        Some(frame)
    } else {
        None
    }
}
