//! Why a join server's answer was not taken.

ghost use Rattle.std.specs.Prelude.{◌≡◌, ◌≤◌, length};
ghost use Rattle.ns_exchange.specs.Front.{first_32, code_of, code_bytes};
ghost use Rattle.ns_exchange.specs.declared.answer.AnsFault.TheVariants.{NoMemory};

use std::alloc::AllocError;
use std::{fmt, str};
use thiserror::Error;

/// The first fault of an answer, printed as its number, or want of memory.
#[derive(Clone, Copy, Debug, PartialEq, Eq, Error)]
pub enum AnsFault {
    /// A1: the bytes are no JSON.
    #[error("A1")]
    NotJson,
    /// A2: a field is missing or wrong.
    #[error("A2")]
    Field,
    /// A3: the MessageType is not JoinAns, or the TransactionID is not the one asked.
    #[error("A3")]
    AnotherMessage,
    /// A4: the join server refused, with this ResultCode.
    #[error("A4")]
    Refused(ResultCode),
    /// A5: the PHYPayload is no Join-Accept.
    #[error("A5")]
    NoJoinAccept,
    /// A6: the NwkSKey is wrapped, or is not 16 bytes.
    #[error("A6")]
    NwkSKey,
    /// Memory ran out before the answer was known.
    #[error("no memory")]
    NoMemory,
}

impl From<AllocError> for AnsFault {
    ghost from_gives = { λ _ e. e ≡ NoMemory };

    fn from(_error: AllocError) -> AnsFault {
        AnsFault::NoMemory
    }
}

/// The front of a ResultCode: its first 32 bytes, cut at a character.
#[derive(Clone, Copy, PartialEq, Eq)]
pub struct ResultCode {
    len: u8,
    // The bytes, and zeros behind them.
    room: [u8; 32],
}

// The first 32 bytes of a text, cut at a character.
fn first_32(text: &str) -> &str
    ensures front { result.now ≡ first_32 text.now }
    ensures len { length result.now ≤ 32 }
{
    if text.len() <= 32 {
        text
    } else {
        let end = text.floor_char_boundary(32);
        &text[..end]
    }
}

impl ResultCode {
    /// The front of a text.
    pub fn of(code: &str) -> ResultCode
        ensures is { result ≡ code_of code.now }
        ensures bytes { code_bytes result ≡ first_32 code.now }
    {
        let front = first_32(code).as_bytes();
        let mut room = [0; 32];
        room[..front.len()].copy_from_slice(front);
        ResultCode {
            len: front.len() as u8,
            room,
        }
    }

    /// The bytes.
    pub fn as_bytes(&self) -> &[u8]
        ensures { result.now ≡ code_bytes self.now }
    {
        &self.room[..usize::from(self.len).min(32)]
    }
}

/// Shown as a text.
impl fmt::Debug for ResultCode {
    fn fmt<W: fmt::Write>(&self, f: &mut fmt::Formatter<W>) -> fmt::Result {
        fmt::Debug::fmt(str::from_utf8(self.as_bytes()).unwrap_or(""), f)
    }
}
