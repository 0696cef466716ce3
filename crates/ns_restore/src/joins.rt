//! Joins.

ghost use Rattle.std.specs.Prelude.{◌≤◌, length, OnOk};
ghost use Rattle.ns_restore.specs.Tables.{AreOfOneShard};

use crate::fault::RestoreFault;
use crate::frames::{HEARD, accepted, unasked};
use crate::maker::Maker;
use crate::making::Making;
use crate::plan::Plan;
use ns_calls::{Call, Reply};
use ns_checkpoint::DeviceTable;
use ns_sessions::OpenTicket;

// Asks for a session and has it accepted.
fn begin(
    maker: &mut Maker,
    making: &mut Making,
    plan: &Plan,
    number: u32,
) -> Result<(), RestoreFault>
    ensures { OnOk result (AreOfOneShard maker.new.shard maker.old.shard) }
{
    let table = making.table;
    // The nonces of its sessions end with the greatest.
    let later = table.next_session.saturating_sub(1).saturating_sub(number);
    let greatest = table.greatest.ok_or(RestoreFault::Unreached)?;
    if later > u32::from(greatest.0) {
        return Err(RestoreFault::Unreached);
    }
    let ticket = unasked(&making.device, greatest.0 - later as u16, table);
    let asked = Call::Join {
        ticket,
        heard: HEARD,
    };
    let Reply::Ask { .. } = maker.call(&asked)? else {
        return Err(RestoreFault::Unreached);
    };
    let (nwk, app) = plan.keys(table, number);
    let outcome = accepted(nwk, app);
    match maker.call(&Call::JoinReply { ticket, outcome })? {
        Reply::Accepted { session, .. } if session == number => {
            making.begun = number;
            Ok(())
        }
        _ => Err(RestoreFault::Unreached),
    }
}

/// Begins the sessions of a device up to this one.
pub(crate) fn join_to(
    maker: &mut Maker,
    making: &mut Making,
    plan: &Plan,
    number: u32,
) -> Result<(), RestoreFault>
    ensures { OnOk result (AreOfOneShard maker.new.shard maker.old.shard) }
{
    let first = making.begun.saturating_add(1);
    'joins: for session in first..number.saturating_add(1) {
        begin(maker, making, plan, session)?;
    }
    Ok(())
}

/// The number of tickets that were asked for before the last session began, with those before them.
pub(crate) fn stale_tickets(table: &DeviceTable) -> usize
    ensures { result ≤ length table.now.tickets.items }
{
    let tickets = table.tickets.as_slice();
    let Some(greatest) = table.greatest else {
        return 0;
    };
    let mut count = 0;
    for (place, open) in tickets.iter().enumerate() {
        if open.ticket.nonce().0 <= greatest.0 {
            count = place + 1;
        }
    }
    count.min(tickets.len())
}

/// Asks for tickets, each with its best copy as often as it has copies.
pub(crate) fn ask(maker: &mut Maker, tickets: &[OpenTicket]) -> Result<(), RestoreFault>
    ensures { OnOk result (AreOfOneShard maker.new.shard maker.old.shard) }
{
    'tickets: for open in tickets {
        let asked = Call::Join {
            ticket: open.ticket,
            heard: open.copies.best(),
        };
        'copies: for copy in 0..open.copies.count() {
            match maker.call(&asked)? {
                Reply::Ask { .. } if copy == 0 => {}
                Reply::JoinCopied { .. } if copy > 0 => {}
                _ => return Err(RestoreFault::Unreached),
            }
        }
    }
    Ok(())
}
