//! What shards answer from, as plain values.

ghost use Rattle.std.specs.Prelude.{◌↔◌, IsTrue};
ghost use Rattle.ns_checkpoint.specs.Unjoined.{IsUnjoined};

use arrayvec::ArrayVec;
use ns_calls::MOST_TICKETS;
use ns_sessions::{MOST_SESSIONS, OpenTicket, Session};
use ns_types::{DevEui, DevNonce};
use ns_windows::Window;

/// What a shard answers from for one device. A device without a table has not joined: its greatest nonce is the last one of the roster.
#[derive(Drop)]
pub struct DeviceTable {
    pub eui: DevEui,
    /// The greatest of the accepted DevNonces and the roster's last one.
    pub greatest: Option<DevNonce>,
    /// The number of the session that the next join begins.
    pub next_session: u32,
    /// The live sessions, the oldest first.
    pub sessions: ArrayVec<Session, MOST_SESSIONS>,
    /// The open tickets, in the order in which they were asked for.
    pub tickets: ArrayVec<OpenTicket, MOST_TICKETS>,
}

impl DeviceTable {
    /// Whether the device has not joined and has no open ticket, and the roster's last nonce is this. Such a device needs no line, since a
    /// missing device means the same.
    pub fn is_unjoined(&self, last_nonce: Option<DevNonce>) -> bool
        ensures { IsTrue result ↔ IsUnjoined last_nonce self.now }
    {
        self.greatest == last_nonce
            && self.next_session == 1
            && self.sessions.is_empty()
            && self.tickets.is_empty()
    }
}

/// What one shard answers from.
#[derive(Drop)]
pub struct Tables {
    /// The devices that joined or asked to join, in the order of the roster.
    pub devices: Vec<DeviceTable>,
    /// The open windows, in the order of their opening.
    pub windows: Vec<Window>,
}

/// What the first line of a checkpoint says.
#[derive(Clone, Copy)]
pub struct Head {
    /// The number of lines between the first and the last one of the checkpoint.
    pub lines: u64,
    /// The number of bytes of `up` lines that were written before the checkpoint.
    pub ups: u64,
}

/// What a checkpoint has.
#[derive(Drop)]
pub struct Checkpoint {
    /// The number of bytes of `up` lines that were written before it.
    pub ups: u64,
    /// The sixteen shards, each at its number.
    pub shards: Vec<Tables>,
}
