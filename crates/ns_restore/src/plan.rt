//! The devices of tables, and the keys of their sessions.

use crate::fault::RestoreFault;
use crate::making::Making;
use ns_checkpoint::{DeviceTable, Tables};
use ns_roster::Roster;
use ns_types::{DevEui, Key};
use std::alloc::{AllocError, Global};
use std::collections::HashMap;

/// Where the windows of tables are.
#[derive(Drop)]
pub(crate) struct Plan<'a> {
    pub tables: &'a Tables,
    // The place of the device of each window.
    places: HashMap<u64, usize>,
    // The place of a window of each session that has one.
    sessions: HashMap<(u64, u32), usize>,
}

impl<'a> Plan<'a> {
    pub(crate) fn new(alloc: Global, tables: &'a Tables) -> Result<Plan<'a>, AllocError> {
        let mut places = HashMap::new(alloc);
        let mut sessions = HashMap::new(alloc);
        if !tables.windows.is_empty() {
            for (place, device) in tables.devices.as_slice().iter().enumerate() {
                places.insert(device.eui.0, place)?;
            }
        }
        for (place, window) in tables.windows.as_slice().iter().enumerate() {
            sessions.insert((window.name.eui.0, window.name.session), place)?;
        }
        Ok(Plan {
            tables,
            places,
            sessions,
        })
    }

    /// The place of a device that has a window.
    pub(crate) fn place(&self, eui: DevEui) -> Option<usize> {
        Some(*self.places.get(&eui.0)?)
    }

    /// The keys of a session: those of the live one or of a window. No answer rests on those of other sessions, which are made up.
    pub(crate) fn keys(&self, table: &DeviceTable, number: u32) -> (Key, Option<Key>) {
        for session in &table.sessions {
            if session.number == number {
                return (session.nwk, session.app);
            }
        }
        match self.window_of(table.eui, number) {
            Some(keys) => keys,
            None => (Key([0; 16]), None),
        }
    }

    // The keys of a session that has a window.
    fn window_of(&self, eui: DevEui, session: u32) -> Option<(Key, Option<Key>)> {
        let place = *self.sessions.get(&(eui.0, session))?;
        let window = self.tables.windows.as_slice().get(place)?;
        Some((window.nwk, window.app))
    }

    /// The devices of the tables, none of which has joined.
    pub(crate) fn makings(
        &self,
        alloc: Global,
        roster: &Roster,
    ) -> Result<Vec<Making<'a>>, RestoreFault> {
        let mut makings = Vec::with_capacity(alloc, self.tables.devices.len())?;
        for table in self.tables.devices.as_slice() {
            let Some(device) = roster.find(table.eui) else {
                return Err(RestoreFault::NoDevice);
            };
            let addr = roster.device_addr(device);
            match makings.push(Making::new(table, *device, addr)) {
                Ok(()) => {}
                Err(refused) => return Err(AllocError::from(refused).into()),
            }
        }
        for window in self.tables.windows.as_slice() {
            let place = self.place(window.name.eui).ok_or(RestoreFault::NoDevice)?;
            if let Some(making) = makings.get_mut(place) {
                making.count_window(&window.name);
            }
        }
        for making in makings.as_mut_slice() {
            making.settle()?;
        }
        Ok(makings)
    }
}
