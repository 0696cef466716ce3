//! Many devices at rest.

use crate::network::{INDEX, eui, roster};
use arrayvec::ArrayVec;
use ns_checkpoint::{DeviceTable, Tables};
use ns_restore::restore;
use ns_sessions::Session;
use ns_types::{DevNonce, Key};
use std::alloc::Global;

// The table of a device that has joined twice, and has sent uplinks with so many acknowledgements.
fn at_rest(device: usize, acks: u64) -> DeviceTable {
    let [a, b, ..] = device.to_le_bytes();
    let mut sessions = ArrayVec::new();
    sessions.push(Session {
        number: 2,
        nwk: Key([a, b, 3, 3, 3, 3, 3, 3, 3, 3, 3, 3, 3, 3, 3, 3]),
        app: Some(Key([a, b, 4, 4, 4, 4, 4, 4, 4, 4, 4, 4, 4, 4, 4, 4])),
        greatest_counter: Some(1000),
        round: 1,
        next_ack: acks,
    });
    DeviceTable {
        eui: eui(device),
        greatest: Some(DevNonce(9)),
        next_session: 3,
        sessions,
        tickets: ArrayVec::new(),
    }
}

// The tables of so many devices at rest.
fn tables(alloc: Global, devices: usize, acks: u64) -> Option<Tables> {
    let mut tables = Tables {
        devices: Vec::new(alloc),
        windows: Vec::new(alloc),
    };
    for device in 0..devices {
        match tables.devices.push(at_rest(device, acks)) {
            Ok(()) => {}
            Err(_) => return None,
        }
    }
    Some(tables)
}

// How many entries are kept of so many devices at rest, which are restored.
fn restored(alloc: Global, devices: usize, acks: u64) -> Option<usize> {
    let roster = roster(alloc, devices)?;
    let tables = tables(alloc, devices, acks)?;
    let shard = restore(alloc, roster, INDEX, &tables).ok()?;
    Some(shard.entries().len())
}

/// Devices that were never acknowledged, once, and very often.
#[test]
fn devices_at_rest(rt: HostRuntime) {
    for (acks, kept) in [(0, 2), (1, 3), (4_000_000_000, 4)] {
        assert!(rt; restored(rt.alloc(), 60, acks) == Some(60 * kept), "{acks}");
    }
}
