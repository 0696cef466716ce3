//! Places in a roster's text, and faults in words.

use ns_roster::RosterFault;
use std::fmt;
use std::fmt::{Display, Formatter};
use thiserror::Error;

/// A field of a roster beside those of its devices.
#[derive(Clone, Copy, Debug, Error)]
pub enum OuterField {
    #[error("version")]
    Version,
    #[error("net_id")]
    NetId,
    #[error("rx1_offset")]
    Rx1Offset,
    #[error("rx_delay")]
    RxDelay,
    #[error("devices")]
    Devices,
}

/// A field of a device.
#[derive(Clone, Copy, Debug, Error)]
pub enum DeviceField {
    #[error("dev_eui")]
    DevEui,
    #[error("join_eui")]
    JoinEui,
    #[error("slot")]
    Slot,
    #[error("last_nonce")]
    LastNonce,
}

/// What the first fault of a roster's text is about.
#[derive(Clone, Copy, Debug)]
pub enum Place {
    /// The text as a whole.
    Text,
    /// A field beside those of the devices.
    Outer(OuterField),
    /// A field of the device at this place of the list, counted from 1.
    Device(usize, DeviceField),
}

/// The first fault of a roster's text, what it is about, and where that is a device the text of its `dev_eui`, if it has one.
#[derive(Debug, Drop)]
pub struct PlacedFault {
    pub fault: RosterFault,
    pub place: Place,
    pub eui: Option<String>,
}

// The most characters of a DevEUI that are shown: one that is right has 18 at most.
const MOST_SHOWN: usize = 32;

// Shows the first characters of a text, with `?` for each that is no visible ASCII.
fn show<W: fmt::Write>(f: &mut Formatter<W>, text: &str) -> fmt::Result {
    for shown in text.chars().take(MOST_SHOWN) {
        f.write_char(if shown.is_ascii_graphic() { shown } else { '?' })?;
    }
    Ok(())
}

// What an outer field takes.
fn outer_takes(field: OuterField) -> &'static str {
    match field {
        OuterField::Version => "1 or 2",
        OuterField::NetId => "6 hex digits",
        OuterField::Rx1Offset => "0 to 5",
        OuterField::RxDelay => "0 to 15",
        OuterField::Devices => "a list",
    }
}

// What a field of a device takes.
fn device_takes(field: DeviceField) -> &'static str {
    match field {
        DeviceField::DevEui | DeviceField::JoinEui => "16 hex digits",
        DeviceField::Slot => "0 to 2097151",
        DeviceField::LastNonce => "0 to 65535",
    }
}

// Shows the place, as `device 3 (dev_eui 000000000000000d): slot`.
fn show_place<W: fmt::Write>(f: &mut Formatter<W>, placed: &PlacedFault) -> fmt::Result {
    match placed.place {
        Place::Text => write!(f, "the text"),
        Place::Outer(field) => write!(f, "{field}"),
        Place::Device(place, field) => {
            write!(f, "device {place}")?;
            if let Some(eui) = &placed.eui {
                write!(f, " (dev_eui ")?;
                show(f, eui.as_str())?;
                write!(f, ")")?;
            }
            write!(f, ": {field}")
        }
    }
}

impl Display for PlacedFault {
    fn fmt<W: fmt::Write>(&self, f: &mut Formatter<W>) -> fmt::Result {
        show_place(f, self)?;
        match (self.fault, self.place) {
            (RosterFault::Field, Place::Outer(field)) => {
                write!(f, " is missing or wrong: it takes {}", outer_takes(field))
            }
            (RosterFault::Field, Place::Device(_, field)) => {
                write!(f, " is missing or wrong: it takes {}", device_takes(field))
            }
            (RosterFault::NotJson, _) => write!(f, " is no JSON in UTF-8"),
            (RosterFault::Twice, _) => write!(f, " is that of an earlier device"),
            (RosterFault::NetId, _) => write!(f, " is over 1fffff"),
            (RosterFault::Slot, _) => write!(f, " is over 2097151"),
            (RosterFault::TooMany, _) => write!(f, " has more than 65536 devices"),
            (fault, _) => write!(f, ": {fault}"),
        }
    }
}
