//! What happens at a server, step by step.

ghost use Rattle.std.specs.Prelude.{◌≡◌, ◌≤◌, length, IfOk, IsOk};
ghost use Rattle.ns_acts.specs.Lent.{act_lent};

use ns_calls::Bytes;
use ns_types::{Ticket, WindowName};
use std::alloc::{AllocError, Global};
use std::marker::Model;

// How many bytes of a datagram lie in its step itself: those of a datagram with the longest frame at DR0 to DR2 (28 bytes before
// the frame, and 64 of it: RP002 EU868, 59 bytes of MACPayload), and three more, up to which the room is of 96 bytes.
const SHORT_DATAGRAM: usize = 95;

/// Bytes that came from outside. Contracts see the list of them.
#[derive(Drop)]
pub struct OwnedBytes {
    bytes: Vec<u8>,
}

impl Model for OwnedBytes {
    ghost use Rattle.std.specs.Prelude.{List, ℕ};

    ghost Value = { List ℕ };

    ghost view = { λ b. b.bytes.items };
}

impl OwnedBytes {
    /// The bytes of a vector.
    pub fn new(bytes: Vec<u8>) -> OwnedBytes
        ensures { result ≡ bytes.items }
    {
        OwnedBytes { bytes }
    }

    /// Lends the bytes.
    pub fn as_slice(&self) -> &[u8]
        ensures { result.now ≡ self.now }
    {
        self.bytes.as_slice()
    }
}

// The bytes of a datagram: few lie in the value itself, more in memory of their own.
#[derive(Drop)]
enum Stored {
    Short(Bytes<SHORT_DATAGRAM>),
    Long(Vec<u8>),
}

/// The bytes of a datagram, which are mostly few. Contracts see the list of them.
#[derive(Drop)]
pub struct DatagramBytes {
    stored: Stored,
}

impl Model for DatagramBytes {
    ghost use Rattle.std.specs.Prelude.{List, ℕ};
    ghost use Rattle.ns_acts.specs.Private.Datagram.{stored_bytes};

    ghost Value = { List ℕ };

    ghost view = { λ d. stored_bytes d.stored };
}

impl DatagramBytes {
    /// These bytes. Up to 95 take no memory.
    pub fn of(alloc: Global, bytes: &[u8]) -> Result<DatagramBytes, AllocError>
        ensures bytes { IfOk result (λ d. d ≡ bytes.now) }
        ensures short { length bytes.now ≤ 95 → IsOk result }
    {
        let stored = if bytes.len() <= SHORT_DATAGRAM {
            Stored::Short(Bytes::of(bytes))
        } else {
            Stored::Long(Vec::from_slice(alloc, bytes)?)
        };
        Ok(DatagramBytes { stored })
    }

    /// The bytes of a vector. Up to 95 need none of its memory, which is then free.
    pub fn new(bytes: Vec<u8>) -> DatagramBytes
        ensures { result ≡ bytes.items }
    {
        let stored = if bytes.len() <= SHORT_DATAGRAM {
            Stored::Short(Bytes::of(bytes.as_slice()))
        } else {
            Stored::Long(bytes)
        };
        DatagramBytes { stored }
    }

    /// Lends the bytes.
    pub fn as_slice(&self) -> &[u8]
        ensures { result.now ≡ self.now }
    {
        match &self.stored {
            Stored::Short(bytes) => bytes.as_slice(),
            Stored::Long(bytes) => bytes.as_slice(),
        }
    }
}

/// What happens at a step.
#[derive(Drop)]
pub enum Act {
    /// A datagram came from a gateway.
    Datagram(DatagramBytes),
    /// A join server answered the request for a ticket with this body.
    Answer { ticket: Ticket, body: OwnedBytes },
    /// No answer came to the request for a ticket.
    Lost { ticket: Ticket },
    /// A window is to be closed.
    Close(WindowName),
}

impl Act {
    /// Lends the act.
    pub fn lend(&self) -> LentAct<'_>
        ensures { act_lent result ≡ self.now }
    {
        match self {
            Act::Datagram(bytes) => LentAct::Datagram(bytes.as_slice()),
            Act::Answer { ticket, body } => LentAct::Answer {
                ticket: *ticket,
                body: body.as_slice(),
            },
            Act::Lost { ticket } => LentAct::Lost { ticket: *ticket },
            Act::Close(window) => LentAct::Close(*window),
        }
    }
}

/// What happens at a step, of which the bytes are lent from where they lie.
#[derive(Clone, Copy)]
pub enum LentAct<'a> {
    /// A datagram came from a gateway.
    Datagram(&'a [u8]),
    /// A join server answered the request for a ticket with this body.
    Answer { ticket: Ticket, body: &'a [u8] },
    /// No answer came to the request for a ticket.
    Lost { ticket: Ticket },
    /// A window is to be closed.
    Close(WindowName),
}

impl LentAct<'_> {
    /// The act with bytes of its own. `NoMemory` (`AllocError`) where a growth was refused.
    pub fn to_act(&self, alloc: Global) -> Result<Act, AllocError>
        ensures { IfOk result (λ act. act ≡ act_lent self.now) }
    {
        Ok(match self {
            LentAct::Datagram(bytes) => Act::Datagram(DatagramBytes::of(alloc, bytes)?),
            LentAct::Answer { ticket, body } => Act::Answer {
                ticket: *ticket,
                body: OwnedBytes::new(Vec::from_slice(alloc, body)?),
            },
            LentAct::Lost { ticket } => Act::Lost { ticket: *ticket },
            LentAct::Close(window) => Act::Close(*window),
        })
    }
}

/// One step of a run, and the number of the worker that makes it.
#[derive(Drop)]
pub struct Step {
    pub worker: u32,
    pub act: Act,
}
