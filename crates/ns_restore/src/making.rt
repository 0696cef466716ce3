//! How far a device is.

use crate::fault::RestoreFault;
use ns_checkpoint::DeviceTable;
use ns_roster::Device;
use ns_sessions::Session;
use ns_types::{DevAddr, WindowName};

/// A device, its table, and how far it is.
#[derive(Drop)]
pub(crate) struct Making<'a> {
    pub table: &'a DeviceTable,
    pub device: Device,
    pub addr: DevAddr,
    /// The session of the last uplink in the table.
    pub active: Option<Session>,
    /// The number of sessions that it has begun.
    pub begun: u32,
    /// The session of its last uplink, and the greatest counter there.
    pub opened: Option<(u32, u32)>,
    /// The number of acknowledgements in its active session that no later round of a window takes.
    pub surplus: u64,
    /// The number of later rounds in that session without an acknowledgement: the first of these windows were opened unconfirmed.
    pub unconfirmed: u64,
    // Whether the window of the greatest counter is open.
    is_open: bool,
    // The number of closings of windows that are acknowledged, and of counters with several rounds.
    closings: u64,
    repeated: u64,
}

// The session of the last uplink.
fn active_in(table: &DeviceTable) -> Option<Session> {
    for session in &table.sessions {
        if session.greatest_counter.is_some() {
            return Some(*session);
        }
    }
    None
}

impl<'a> Making<'a> {
    pub(crate) fn new(table: &'a DeviceTable, device: Device, addr: DevAddr) -> Making<'a> {
        Making {
            table,
            device,
            addr,
            active: active_in(table),
            begun: 0,
            opened: None,
            surplus: 0,
            unconfirmed: 0,
            is_open: false,
            closings: 0,
            repeated: 0,
        }
    }

    /// The active session, if it is the one of this number.
    pub(crate) fn active(&self, number: u32) -> Option<Session> {
        let active = self.active?;
        if active.number == number {
            Some(active)
        } else {
            None
        }
    }

    /// The name of a window of the device.
    pub(crate) fn window(&self, session: u32, fcnt: u32) -> WindowName {
        WindowName {
            eui: self.device.eui,
            session,
            fcnt,
            round: 1,
        }
    }

    /// The greatest counter in a session, if that is the one of the last uplink.
    pub(crate) fn greatest(&self, session: u32) -> Option<u32> {
        match self.opened {
            Some((number, counter)) if number == session => Some(counter),
            _ => None,
        }
    }

    // Counts the acknowledgements of a counter with rounds.
    fn count_rounds(&mut self, closings: u32) {
        self.closings = self.closings.saturating_add(u64::from(closings));
        self.repeated = self.repeated.saturating_add(1);
    }

    /// Counts the acknowledgements that came before a window of the device: those of its earlier rounds.
    pub(crate) fn count_window(&mut self, name: &WindowName) {
        let Some(active) = self.active(name.session) else {
            return;
        };
        if active.greatest_counter == Some(name.fcnt) {
            self.is_open = true;
        }
        if name.round > 1 {
            self.count_rounds(name.round - 1);
        }
    }

    /// What is left of the acknowledgements, once each window is counted.
    pub(crate) fn settle(&mut self) -> Result<(), RestoreFault> {
        let Some(active) = self.active else {
            return Ok(());
        };
        if !self.is_open && active.round > 1 {
            self.count_rounds(active.round);
        }
        self.surplus = active.next_ack.saturating_sub(self.closings);
        self.unconfirmed = self.closings.saturating_sub(active.next_ack);
        if self.unconfirmed > self.repeated {
            return Err(RestoreFault::Unreached);
        }
        Ok(())
    }
}
