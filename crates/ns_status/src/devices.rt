//! What is known of the devices of a roster.

ghost use Rattle.std.specs.Prelude.{◌≡◌, ◌==◌, IfOk, length, map, count_by, is_some, option_map, slice_get, if◌then◌else◌};
ghost use Rattle.ns_types.specs.declared.identity.DevEui.{DevEui as dev_eui};
ghost use Rattle.ns_status.specs.Devices.{fresh, renewed, with_frame, after_news, noted, recalled, recalled_row, eui_of, row_of, place_of, not_joined, missed, is_heard_since, is_row_heard_since, changed_since, age_of, ages_with};

use crate::news::News;
use indexmap::IndexMap;
use ns_roster::Roster;
use ns_types::{DevAddr, DevEui, GatewayId};
use std::alloc::{AllocError, Global};
use std::marker::Model;

/// When and by which gateway a device was heard.
#[derive(Clone, Copy)]
pub struct HeardBy {
    /// When, in milliseconds of the server's clock.
    pub at_ms: u64,
    pub gateway: GatewayId,
}

/// What is known of a device that joined.
#[derive(Clone, Copy)]
pub struct Device {
    /// The number of its last session.
    pub session: u32,
    /// Its address in that session.
    pub addr: DevAddr,
    /// When the session was first known, in milliseconds of the server's clock. None where it began before the server did, as its record
    /// says.
    pub since_ms: Option<u64>,
    /// How many counters of the session were not missed: those that were heard as new, and all up to the greatest that the record has.
    pub counters: u32,
    /// The greatest counter that was heard in it, also by a copy alone.
    pub fcnt: Option<u32>,
    /// When it was heard last.
    pub heard: Option<HeardBy>,
}

impl Device {
    // A device whose session begins, and when it was heard last before.
    fn fresh(session: u32, addr: DevAddr, now_ms: u64, heard: Option<HeardBy>) -> Device
        ensures { result ≡ fresh session addr now_ms heard }
    {
        Device {
            session,
            addr,
            since_ms: Some(now_ms),
            counters: 0,
            fcnt: None,
            heard,
        }
    }

    // What is known once this session is told of.
    fn renewed(before: Option<Device>, session: u32, addr: DevAddr, now_ms: u64) -> Device
        ensures { result ≡ renewed before session addr now_ms }
    {
        match before {
            None => Device::fresh(session, addr, now_ms, None),
            Some(device) if device.session < session => {
                Device::fresh(session, addr, now_ms, device.heard)
            }
            Some(device) => device,
        }
    }

    // What is known once a frame of its session was heard.
    fn with_frame(self, fcnt: u32, is_new: bool, heard: HeardBy) -> Device
        ensures { result ≡ with_frame self fcnt is_new heard }
    {
        Device {
            counters: self.counters.saturating_add(u32::from(is_new)),
            fcnt: Some(self.fcnt.map_or(fcnt, |before| before.max(fcnt))),
            heard: Some(heard),
            ..self
        }
    }

    // What is known after news of the device.
    fn after_news(before: Option<Device>, news: &News, now_ms: u64) -> Device
        ensures { result ≡ after_news before news.now now_ms }
    {
        match *news {
            News::Joined { session, addr, .. } => Device::renewed(before, session, addr, now_ms),
            News::Heard {
                window,
                addr,
                gateway,
                is_new,
            } => {
                let device = Device::renewed(before, window.session, addr, now_ms);
                if device.session != window.session {
                    return device;
                }
                let heard = HeardBy {
                    at_ms: now_ms,
                    gateway,
                };
                device.with_frame(window.fcnt, is_new, heard)
            }
        }
    }

    // What is known of a device once the record has said this of it. Which counters were missed before is not known, so none of them
    // counts as missed.
    fn recalled(before: Option<Device>, news: &News) -> Device
        ensures { result ≡ recalled before news.now }
    {
        let device = Device::after_news(before, news, 0);
        Device {
            since_ms: None,
            counters: device.fcnt.map_or(0, |fcnt| fcnt.saturating_add(1)),
            heard: None,
            ..device
        }
    }

    // Whether it was heard at this time or later.
    fn is_heard_since(&self, from_ms: u64) -> bool
        ensures { result ≡ is_heard_since from_ms self.now }
    {
        match self.heard {
            Some(heard) => from_ms <= heard.at_ms,
            None => false,
        }
    }

    /// Whether it was heard, or its session began, at this time or later.
    pub fn changed_since(&self, from_ms: u64) -> bool
        ensures { result ≡ changed_since from_ms self.now }
    {
        match self.since_ms {
            Some(since_ms) if from_ms <= since_ms => true,
            _ => self.is_heard_since(from_ms),
        }
    }

    /// How many counters of the session, from 0 to the greatest that was heard, were missed since the server began.
    pub fn missed(&self) -> u64
        ensures { result ≡ missed self.now }
    {
        match self.fcnt {
            Some(fcnt) => (u64::from(fcnt) + 1).saturating_sub(u64::from(self.counters)),
            None => 0,
        }
    }
}

impl News {
    /// The device.
    pub fn eui(&self) -> DevEui
        ensures { result ≡ eui_of self.now }
    {
        match self {
            News::Joined { eui, .. } => *eui,
            News::Heard { window, .. } => window.eui,
        }
    }
}

/// A place for each device of a roster, in its order, and what is known of each that joined. Contracts see the list of them.
#[derive(Drop)]
pub struct Devices {
    rows: IndexMap<DevEui, Option<Device>>,
}

impl Model for Devices {
    ghost use Rattle.std.specs.Prelude.{List, Option};
    ghost use Rattle.ns_types.specs.declared.identity.DevEui.{DevEui};
    ghost use Rattle.ns_status.specs.declared.devices.Device.{Device};

    ghost Value = { List (DevEui × Option Device) };

    ghost view = { λ d. d.rows.entries };
}

impl Devices {
    /// The devices of a roster, none of which has joined. All the memory that they ever take is taken here.
    pub fn new(alloc: Global, roster: &Roster) -> Result<Devices, AllocError>
        ensures { IfOk result (λ d. d ≡ map not_joined roster.now.devices) }
    {
        let mut rows = IndexMap::with_capacity(alloc, roster.devices().len())?;
        for device in roster.devices() {
            rows.insert(device.eui, None)?;
        }
        Ok(Devices { rows })
    }

    /// Notes what a call and its reply told of a device. It takes no memory. Nothing is noted of another device, nor of one that is
    /// not of the roster.
    pub fn note(&mut self, news: &News, now_ms: u64)
        ensures { (d : dev_eui) → row_of self.new d
            ≡ (if (eui_of news.now).0 == d.0 then option_map (noted news.now now_ms) (row_of self.old d) else row_of self.old d) }
    {
        if let Some(row) = self.rows.get_mut(&news.eui()) {
            *row = Some(Device::after_news(*row, news, now_ms));
        }
    }

    /// Notes what the record says of a device, before the server hears any. It takes no memory. Nothing is noted of another device, nor of
    /// one that is not of the roster.
    pub fn recall(&mut self, news: &News)
        ensures { (d : dev_eui) → row_of self.new d
            ≡ (if (eui_of news.now).0 == d.0 then option_map (recalled_row news.now) (row_of self.old d) else row_of self.old d) }
    {
        if let Some(row) = self.rows.get_mut(&news.eui()) {
            *row = Some(Device::recalled(*row, news));
        }
    }

    /// How many places there are.
    pub fn len(&self) -> usize
        ensures { result ≡ length self.now }
    {
        self.rows.len()
    }

    /// Whether there is none.
    pub fn is_empty(&self) -> bool
        ensures { result ≡ (length self.now == 0) }
    {
        self.rows.len() == 0
    }

    /// How many devices have joined.
    pub fn joined(&self) -> usize
        ensures { result ≡ count_by (λ row. is_some row.1) self.now }
    {
        self.rows.iter().filter(|row| row.1.is_some()).count()
    }

    /// How many devices were heard at this time or later.
    pub fn heard_since(&self, from_ms: u64) -> usize
        ensures { result ≡ count_by (λ row. is_row_heard_since from_ms row.1) self.now }
    {
        self.rows
            .iter()
            .filter(|row| is_row_heard(row.1, from_ms))
            .count()
    }

    /// How long ago the devices were last heard, in milliseconds, summed over those that were heard since the server began.
    #[tactic(auto, using(crate::proofs::Ages::ages_more))]
    pub fn sum_of_ages(&self, now_ms: u64) -> u64
        ensures { result ≡ ages_with now_ms 0 self.now }
    {
        let mut sum: u64 = 0;
        for place in 0..self.len() {
            if let Some((_, device)) = self.at(place) {
                sum = sum.saturating_add(age_of(&device, now_ms));
            }
        }
        sum
    }

    /// The device at a place, and what is known of it where it has joined.
    pub fn at(&self, place: usize) -> Option<(DevEui, Option<Device>)>
        ensures { result ≡ slice_get self.now place }
    {
        let (eui, device) = self.rows.get_index(place)?;
        Some((*eui, *device))
    }

    /// The place of a device.
    pub fn place(&self, eui: DevEui) -> Option<usize>
        ensures { result ≡ place_of self.now eui }
    {
        self.rows.get_index_of(&eui)
    }
}

// Whether a device was heard at this time or later.
fn is_row_heard(row: &Option<Device>, from_ms: u64) -> bool
    ensures { result ≡ is_row_heard_since from_ms row.now }
{
    match row {
        Some(device) => device.is_heard_since(from_ms),
        None => false,
    }
}

// How long ago a device was last heard, in milliseconds, or 0 if it was not heard since the server began.
fn age_of(row: &Option<Device>, now_ms: u64) -> u64
    ensures { result ≡ age_of now_ms row.now }
{
    match row {
        Some(
            Device {
                heard: Some(heard),
                ..
            },
        ) => now_ms.saturating_sub(heard.at_ms),
        _ => 0,
    }
}
