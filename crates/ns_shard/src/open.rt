//! The tickets of a shard that are open.

ghost use Rattle.std.specs.Prelude.{◌≡◌, IfOk, filter_map};
ghost use Rattle.ns_devices.specs.Devices.{has_ticket_in};
ghost use Rattle.ns_shard.specs.State.{asked_in};

use ns_calls::{Entry, Reply};
use ns_devices::Devices;
use ns_types::Ticket;
use std::alloc::{AllocError, Global};

// The ticket that an entry with this reply asks for, where it is open.
fn asked_in(devices: &Devices, reply: &Reply) -> Option<Ticket>
    ensures { result ≡ asked_in (has_ticket_in devices.now) reply.now }
{
    match reply {
        Reply::Ask { ticket } if devices.is_ticket_open(ticket) => Some(*ticket),
        _ => None,
    }
}

/// The open tickets that entries asked for, in order.
pub fn open_tickets(
    alloc: Global,
    devices: &Devices,
    entries: &[Entry],
) -> Result<Vec<Ticket>, AllocError>
    ensures { IfOk result (λ v. v.items ≡ filter_map (λ e. asked_in (has_ticket_in devices.now) e.reply) entries.now) }
{
    entries
        .iter()
        .filter_map(|entry| asked_in(devices, &entry.reply))
        .collect(alloc)
}
