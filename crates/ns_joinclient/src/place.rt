//! Where in a head its bytes end, one byte after another.

ghost use Rattle.std.specs.Prelude.{◌≡◌, ◌≤◌, ◌++◌, ◌∷◌, [], ℕ, List, length, take, true};
ghost use Rattle.ns_joinclient.specs.Place.{EndsAt, IsStart};

use httparse::{is_header_name_token, is_header_value_token};

/// The bytes of a version, a space and a status: `HTTP/1.1 200`.
pub(crate) const START: usize = 12;

/// Where in a head its bytes end.
#[derive(Clone, Copy)]
pub(crate) enum Place {
    /// Behind empty lines, or at the start.
    Blank,
    /// Behind the CR of an empty line before the status line.
    BlankReturn,
    /// Behind the status.
    Code,
    /// In the reason phrase.
    Reason,
    /// Behind the CR of the status line.
    StatusReturn,
    /// Behind the status line or a header's line.
    Line,
    /// In the name of a header.
    Name,
    /// In the value of a header.
    Value,
    /// Behind the CR of a header's line.
    ValueReturn,
    /// Behind the CR of the empty line that ends the head.
    LastReturn,
    /// At none of these: the head is whole, or the bytes can begin none.
    Other,
}

impl Place {
    // The place behind a line feed.
    fn after_feed(self) -> Place
        ensures { (text : List ℕ) → EndsAt self text → EndsAt result (text ++ 10 ∷ []) }
    {
        match self {
            Place::Blank | Place::BlankReturn => Place::Blank,
            Place::Code | Place::Reason | Place::StatusReturn => Place::Line,
            Place::Value | Place::ValueReturn => Place::Line,
            Place::Line | Place::Name | Place::LastReturn | Place::Other => Place::Other,
        }
    }

    // The place behind a CR.
    fn after_return(self) -> Place
        ensures { (text : List ℕ) → EndsAt self text → EndsAt result (text ++ 13 ∷ []) }
    {
        match self {
            Place::Blank => Place::BlankReturn,
            Place::Code | Place::Reason => Place::StatusReturn,
            Place::Line => Place::LastReturn,
            Place::Value => Place::ValueReturn,
            _ => Place::Other,
        }
    }

    // The place behind another byte.
    fn after_text(self, byte: u8) -> Place
        ensures { (text : List ℕ) → EndsAt self text → EndsAt result (text ++ byte ∷ []) }
    {
        match self {
            Place::Code if byte == b' ' => Place::Reason,
            Place::Reason if is_header_value_token(byte) => Place::Reason,
            Place::Line if is_header_name_token(byte) => Place::Name,
            Place::Name if is_header_name_token(byte) => Place::Name,
            Place::Name if byte == b':' => Place::Value,
            Place::Value if is_header_value_token(byte) => Place::Value,
            _ => Place::Other,
        }
    }

    /// The place behind one more byte.
    pub fn after(self, byte: u8) -> Place
        ensures { (text : List ℕ) → EndsAt self text → EndsAt result (text ++ byte ∷ []) }
    {
        match byte {
            b'\n' => self.after_feed(),
            b'\r' => self.after_return(),
            _ => self.after_text(byte),
        }
    }
}

/// Whether bytes begin with a version, a space and a status.
pub(crate) fn begins_status(bytes: &[u8]) -> bool
    ensures long { result ≡ true → START ≤ length bytes.now }
    ensures start { result ≡ true → IsStart (take START bytes.now) }
{
    let Some(rest) = bytes.strip_prefix(b"HTTP/1.") else {
        return false;
    };
    if rest.len() < 5 || rest[0] < b'0' || rest[0] > b'1' || rest[1] != b' ' {
        return false;
    }
    if !rest[2].is_ascii_digit() || !rest[3].is_ascii_digit() || !rest[4].is_ascii_digit() {
        return false;
    }
    true
}
