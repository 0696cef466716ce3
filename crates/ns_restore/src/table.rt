//! The tables of a shard.

ghost use Rattle.std.specs.Prelude.{◌≡◌, IfOk};
ghost use Rattle.ns_restore.specs.Tables.{is_told, HasTables};

use crate::compare::has_tables;
use crate::fault::RestoreFault;
use arrayvec::ArrayVec;
use ns_checkpoint::{DeviceTable, Tables};
use ns_devices::{Devices, Own};
use ns_sessions::{Copies, OpenTicket};
use ns_shard::Shard;
use ns_windows::{Window, Windows};
use std::alloc::{AllocError, Global};

/// Whether a device has a table: it has joined, or it has an open ticket.
pub(crate) fn is_told(own: &Own) -> bool
    ensures { result ≡ is_told own.now }
{
    own.state.next_session() > 1 || own.state.tickets().len() > 0
}

// A copy of an open ticket.
fn ticket_of(open: &OpenTicket) -> Option<OpenTicket> {
    let copies = open.copies.count();
    if copies == 0 {
        return None;
    }
    Some(OpenTicket {
        ticket: open.ticket,
        copies: Copies::new(copies, &open.copies.best()),
    })
}

// The table of a device.
fn table_of(own: &Own) -> Option<DeviceTable> {
    let state = &own.state;
    let mut tickets = ArrayVec::new();
    for open in state.tickets() {
        if tickets.is_full() {
            return None;
        }
        tickets.push(ticket_of(open)?);
    }
    Some(DeviceTable {
        eui: own.device.eui,
        greatest: state.greatest(),
        next_session: state.next_session(),
        sessions: state.sessions(),
        tickets,
    })
}

// The tables of the devices that have one.
fn device_tables(alloc: Global, devices: &Devices) -> Result<Vec<DeviceTable>, RestoreFault> {
    let mut tables = Vec::new(alloc);
    for own in devices.iter() {
        if is_told(own) {
            let table = table_of(own).ok_or(RestoreFault::OtherTables)?;
            tables.push(table).map_err(AllocError::from)?;
        }
    }
    Ok(tables)
}

// A copy of a window.
fn copy_of(window: &Window) -> Option<Window> {
    let mut copies = ArrayVec::new();
    for heard in &window.copies {
        if copies.is_full() {
            return None;
        }
        copies.push(*heard);
    }
    Some(Window {
        name: window.name,
        copies,
        nwk: window.nwk,
        app: window.app,
        frame: window.frame,
    })
}

// Copies of the open windows.
fn copies_of(alloc: Global, windows: &Windows) -> Result<Vec<Window>, RestoreFault> {
    let mut copies = Vec::new(alloc);
    for window in windows.iter() {
        let copy = copy_of(window).ok_or(RestoreFault::OtherTables)?;
        copies.push(copy).map_err(AllocError::from)?;
    }
    Ok(copies)
}

/// The tables of a shard, which are compared with it. `NoMemory` if a growth was refused; it gives no other fault (no clause).
pub fn tables_of(alloc: Global, shard: &Shard) -> Result<Tables, RestoreFault>
    ensures { IfOk result (λ t. HasTables shard.now t) }
{
    let tables = Tables {
        devices: device_tables(alloc, shard.devices())?,
        windows: copies_of(alloc, shard.windows())?,
    };
    if has_tables(shard, &tables) {
        Ok(tables)
    } else {
        Err(RestoreFault::OtherTables)
    }
}
