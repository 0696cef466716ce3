//! What is open in shards.

ghost use Rattle.std.specs.Prelude.{◌≡◌, IfOk};
ghost use Rattle.ns_resume.specs.Resumed.{windows_in, tickets_in};

use ns_shard::Shard;
use ns_types::{Ticket, WindowName};
use std::alloc::{AllocError, Global};

/// The windows and the tickets that are open, shard by shard.
#[derive(Drop)]
pub struct Open {
    pub windows: Vec<WindowName>,
    pub tickets: Vec<Ticket>,
}

/// What is open in these shards.
pub fn open_in(alloc: Global, shards: &[Shard]) -> Result<Open, AllocError>
    ensures windows { IfOk result (λ o. o.windows.items ≡ windows_in shards.now) }
    ensures tickets { IfOk result (λ o. o.tickets.items ≡ tickets_in shards.now) }
{
    let mut windows = Vec::new(alloc);
    let mut tickets = Vec::new(alloc);
    'shards: for shard in shards {
        windows.extend_from_slice(shard.open_windows(alloc)?.as_slice())?;
        tickets.extend_from_slice(shard.open_tickets(alloc)?.as_slice())?;
    }
    Ok(Open { windows, tickets })
}
