//! What a shard answers from, compared with tables.

ghost use Rattle.std.specs.Prelude.{◌≡◌, IsTrue, ◌↔◌, option_map};
ghost use Rattle.ns_restore.specs.Tables.{table_of, tables_of, HasTables};

use crate::table::is_told;
use ns_checkpoint::{DeviceTable, Tables};
use ns_devices::{Devices, Own};
use ns_sessions::{DeviceState, OpenTicket, Session};
use ns_shard::Shard;
use ns_types::DevNonce;
use ns_windows::{Window, Windows};

// Whether these are the same tickets, in one order.
fn are_same(tickets: &[OpenTicket], others: &[OpenTicket]) -> bool
    ensures { IsTrue result → tickets.now ≡ others.now }
{
    if tickets.len() != others.len() {
        return false;
    }
    for place in 0..tickets.len() {
        if !tickets[place].is_same(&others[place]) {
            return false;
        }
    }
    true
}

// Whether a device has this greatest nonce.
fn has_greatest(state: &DeviceState, greatest: Option<DevNonce>) -> bool
    ensures { IsTrue result → greatest ≡ option_map (λ n. record { 0 = n }) state.now.greatest_nonce }
{
    match (state.greatest(), greatest) {
        (None, None) => true,
        (Some(own), Some(given)) => own.0 == given.0,
        _ => false,
    }
}

// Whether these are the same session.
fn is_same(session: &Session, other: &Session) -> bool
    ensures { IsTrue result ↔ (session.now ≡ other.now) }
{
    *session == *other
}

// Whether these are the same sessions, in one order.
fn has_sessions(sessions: &[Session], others: &[Session]) -> bool
    ensures { IsTrue result → others.now ≡ sessions.now }
{
    let (mut ours, mut rest) = (sessions, others);
    'ours: while let Some((session, more)) = ours.split_first() {
        match rest.split_first() {
            Some((first, after)) if is_same(first, session) => {
                ours = more;
                rest = after;
            }
            _ => return false,
        }
    }
    rest.is_empty()
}

// Whether a device has this table.
fn has_table(own: &Own, table: &DeviceTable) -> bool
    ensures { IsTrue result → table.now ≡ table_of own.now }
{
    let state = &own.state;
    if own.device.eui != table.eui || state.next_session() != table.next_session {
        return false;
    }
    let sessions = state.sessions();
    if !has_greatest(state, table.greatest)
        || !has_sessions(sessions.as_slice(), table.sessions.as_slice())
    {
        return false;
    }
    are_same(state.tickets(), table.tickets.as_slice())
}

// Whether the devices that have tables have these.
fn have_tables(devices: &Devices, tables: &[DeviceTable]) -> bool
    ensures { IsTrue result → tables.now ≡ tables_of devices.now }
{
    let (mut ours, mut rest) = (devices.iter(), tables);
    'ours: while let Some(own) = ours.next() {
        if !is_told(own) {
            continue;
        }
        match rest.split_first() {
            Some((first, after)) if has_table(own, first) => rest = after,
            _ => return false,
        }
    }
    rest.is_empty()
}

// Whether the open windows are these.
fn are_open(windows: &Windows, tables: &[Window]) -> bool
    ensures { IsTrue result → tables.now ≡ windows.now }
{
    let (mut ours, mut rest) = (windows.iter(), tables);
    'ours: while let Some(window) = ours.next() {
        match rest.split_first() {
            Some((first, after)) if first.is_same(window) => rest = after,
            _ => return false,
        }
    }
    rest.is_empty()
}

/// Whether these are the tables of a shard.
pub fn has_tables(shard: &Shard, tables: &Tables) -> bool
    ensures { IsTrue result → HasTables shard.now tables.now }
{
    have_tables(shard.devices(), tables.devices.as_slice())
        && are_open(shard.windows(), tables.windows.as_slice())
}
