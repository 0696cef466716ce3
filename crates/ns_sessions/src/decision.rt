//! What comes of a Join-Request, and of a join server's answer.

use ns_types::{DevNonce, Heard};

/// What comes of a Join-Request.
#[derive(Clone, Copy)]
pub enum JoinDecision {
    /// The join server is to be asked.
    Ask,
    /// The join is open, and this copy has this place in it, 2 to 16.
    Copied(u8),
    /// The join is open, and has 16 copies already.
    Crowded,
    /// The nonce is at most this one, the device's greatest: accepted, or the roster's last.
    Old(DevNonce),
    /// Four joins of the device are open already.
    Busy,
}

/// What comes of a join server's answer.
#[derive(Clone, Copy)]
pub enum AnswerDecision {
    /// The join is not open.
    NoTicket,
    /// The join server refused, or did not answer.
    Refused,
    /// The nonce is at most this one, the device's greatest: accepted, or the roster's last.
    Stale(DevNonce),
    /// A session begins: its number, from 1, and the best copy of the Join-Request.
    Accepted { session: u32, best: Heard },
}
