//! What the devices of a shard tell a trim.

ghost use Rattle.std.specs.Prelude.{◌≡◌, ℕ, Bool};
ghost use Rattle.ns_types.specs.declared.identity.DevEui.{DevEui};
ghost use Rattle.ns_types.specs.declared.ticket.Ticket.{Ticket};

use ns_types::{DevEui, Ticket};

/// The live sessions and the open tickets of the devices of a shard.
pub trait DeviceTable {
    ghost lives: { Self → DevEui → ℕ → Bool };

    ghost has_ticket: { Self → Ticket → Bool };

    /// Whether a session of a device lives.
    fn is_live(&self, eui: DevEui, session: u32) -> bool
        ensures { result ≡ lives self.now eui session };

    /// Whether a ticket is open.
    fn is_ticket_open(&self, ticket: &Ticket) -> bool
        ensures { result ≡ has_ticket self.now ticket.now };
}
