//! Tables under another roster than the one that they come of.

use arrayvec::ArrayVec;
use ns_aes_cmac::Aes128;
use ns_checkpoint::{DeviceTable, Tables};
use ns_roster::{Device, Roster};
use ns_sessions::Session;
use ns_types::{DevEui, Key, shard_of};
use ns_windows::Window;
use std::alloc::{AllocError, Global};
use std::collections::{HashMap, HashSet};

// The block of which the key of an ended session is made, under that session's own.
const ENDED: [u8; 16] = *b"the session ends";

/// What of the tables of a shard fits a roster, and what does not.
#[derive(Drop)]
pub struct Fitted {
    /// The tables, in the order of the roster.
    pub tables: Tables,
    /// The devices that the roster does not have in this shard. They have no table.
    pub left_out: Vec<DevEui>,
    /// The devices that have another slot or JoinEUI in the roster. Their sessions have ended, and so have their windows and tickets. The
    /// greatest nonce and the number of the next session stay.
    pub ended: Vec<DevEui>,
}

// The table of a device whose sessions have ended. In place of the last one it has a session in which nobody can send: its key is made of the
// last one's, and that one cannot be made of it.
fn ended(table: &DeviceTable) -> DeviceTable {
    let mut sessions = ArrayVec::new();
    if let Some(last) = table.sessions.last() {
        sessions.push(Session {
            number: table.next_session.saturating_sub(1),
            nwk: Key(Aes128::new(&last.nwk).encrypt(&ENDED)),
            app: None,
            greatest_counter: None,
            round: 0,
            next_ack: 0,
        });
    }
    DeviceTable {
        eui: table.eui,
        greatest: table.greatest,
        next_session: table.next_session,
        sessions,
        tickets: ArrayVec::new(),
    }
}

// Whether one of a device's open tickets names another JoinEUI.
fn has_another_join_eui(table: &DeviceTable, device: &Device) -> bool {
    table
        .tickets
        .iter()
        .any(|open| open.ticket.join_eui() != device.join_eui)
}

// The devices of which a window is at another address than the roster's.
fn moved(alloc: Global, roster: &Roster, windows: &[Window]) -> Result<HashSet<u64>, AllocError> {
    let mut moved = HashSet::new(alloc);
    for window in windows {
        if let Some(device) = roster.find(window.name.eui) {
            if roster.device_addr(device) != window.frame.view().dev_addr() {
                moved.insert(device.eui.0)?;
            }
        }
    }
    Ok(moved)
}

// The tables of devices at their EUIs.
fn by_eui(
    alloc: Global,
    tables: Vec<DeviceTable>,
) -> Result<HashMap<u64, DeviceTable>, AllocError> {
    let mut by_eui = HashMap::new(alloc);
    for table in tables {
        by_eui.insert(table.eui.0, table)?;
    }
    Ok(by_eui)
}

// The windows of devices that have tables and whose sessions go on.
fn kept_windows(
    alloc: Global,
    windows: Vec<Window>,
    fitting: &HashSet<u64>,
) -> Result<Vec<Window>, AllocError> {
    let mut kept = Vec::new(alloc);
    for window in windows {
        if fitting.contains(&window.name.eui.0) {
            kept.push(window)?;
        }
    }
    Ok(kept)
}

/// What of the tables of a shard fits a roster, which may be another one than that of the shard. Without a window at its old address or a
/// ticket with its old JoinEUI a device's tables do not say that these changed: then its session stays, and no frame that the device sends is
/// at its new address. `NoMemory` (`AllocError`) if a growth was refused.
pub fn fitting(
    alloc: Global,
    roster: &Roster,
    index: u8,
    tables: Tables,
) -> Result<Fitted, AllocError> {
    let moved = moved(alloc, roster, tables.windows.as_slice())?;
    let mut given = by_eui(alloc, tables.devices)?;
    let mut going_on = HashSet::new(alloc);
    let mut devices = Vec::new(alloc);
    let mut stopped = Vec::new(alloc);
    for device in roster.devices() {
        let Some(table) = given.remove(&device.eui.0) else {
            continue;
        };
        if moved.contains(&device.eui.0) || has_another_join_eui(&table, device) {
            stopped.push(device.eui)?;
            if table.next_session > 1 {
                devices.push(ended(&table))?;
            }
        } else {
            going_on.insert(device.eui.0)?;
            devices.push(table)?;
        }
    }
    let mut left_out = Vec::new(alloc);
    for (_, table) in given {
        left_out.push(table.eui)?;
    }
    Ok(Fitted {
        tables: Tables {
            devices,
            windows: kept_windows(alloc, tables.windows, &going_on)?,
        },
        left_out,
        ended: stopped,
    })
}
