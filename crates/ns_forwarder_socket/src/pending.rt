//! The datagrams of the message at hand.

ghost use Rattle.std.specs.Prelude.{◌≡◌, ◌≤◌, [], map, IfOk, IfSome, IfNone};
ghost use Rattle.ns_forwarder_socket.specs.Pending.{waiting, IsGiven};

use ns_forwarder::{Kind, LeftOut};
use ns_types::GatewayId;
use std::alloc::{AllocError, Global};

// The longest message that is looked at has 16,384 bytes. A longer one is cut behind one byte more, and so refused.
const ROOM: usize = 16_385;

/// What a message was that was taken.
#[derive(Drop)]
pub struct Heard {
    pub gateway: GatewayId,
    pub kind: Kind,
    /// Whether it has the status of a gateway (`stat`).
    pub has_stat: bool,
    /// Why each of its items was left out that became no datagram (F7 to F10), in order.
    pub left_out: Vec<LeftOut>,
}

/// One worker's room for a message, and the datagrams of its last one that wait to be given.
#[derive(Drop)]
pub struct Pending {
    pub(crate) room: Vec<u8>,
    datagrams: Vec<Vec<u8>>,
    given: usize,
    // The last message that was taken, until it is asked for.
    pub(crate) heard: Option<Heard>,
}

impl Pending {
    /// No datagram waits.
    pub fn new(alloc: Global) -> Result<Pending, AllocError>
        ensures { IfOk result (λ p. waiting p ≡ []) }
    {
        let mut room = Vec::with_capacity(alloc, ROOM)?;
        room.resize(ROOM, 0)?;
        Ok(Pending {
            room,
            datagrams: Vec::new(alloc),
            given: 0,
            heard: None,
        })
    }

    /// These wait from now on, and no others.
    pub fn put(&mut self, datagrams: Vec<Vec<u8>>)
        ensures { waiting self.new ≡ map (λ d. d.items) datagrams.items }
    {
        self.datagrams = datagrams;
        self.given = 0;
    }

    /// What the last message was that was taken, once.
    pub fn take_heard(&mut self) -> Option<Heard>
        ensures { waiting self.new ≡ waiting self.old }
    {
        self.heard.take()
    }

    /// Puts the next of them at the front of the buffer, and gives its length, or none where none waits. One of more than 512 bytes, which
    /// no frame becomes, is cut.
    pub fn give(&mut self, buf: &mut [u8; 512]) -> Option<usize>
        ensures fits { IfSome result (λ n. n ≤ 512) }
        ensures next { IfSome result (λ n. IsGiven (waiting self.old) (waiting self.new) n buf.new) }
        ensures none { IfNone result (waiting self.old ≡ []) }
    {
        let datagram = self.datagrams.get(self.given)?;
        let n = buf.len().min(datagram.len());
        buf[..n].copy_from_slice(&datagram.as_slice()[..n]);
        self.given += 1;
        Some(n)
    }
}
