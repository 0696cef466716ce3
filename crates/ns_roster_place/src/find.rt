//! The first fault of a text.

ghost use Rattle.std.specs.Prelude.{◌≡◌, [], IfOk, map, option_map, string_bytes};
ghost use Rattle.serde_json.specs.View.{view};
ghost use Rattle.ns_roster.specs.Text.{roster_of};
ghost use Rattle.ns_roster_place.specs.Place.{placed_view, in_device, fault_from, fault_in, first_fault, refusal_of};

use crate::device::wrong_field;
use crate::outer::wrong_outer;
use crate::place::{OuterField, Place, PlacedFault};
use ns_roster::RosterFault;
use ns_roster::field::{text_at, value_of};
use ns_roster::reading::{add_value, outer_of};
use serde_json::Value;
use std::alloc::{AllocError, Global};
use std::collections::HashMap;

// The greatest NetID of type 0.
const MAX_NET_ID: u32 = 0x1F_FFFF;

const MAX_DEVICES: usize = 65_536;

// A fault that is about no device.
fn beside(fault: RosterFault, place: Place) -> PlacedFault
    ensures { placed_view result ≡ record { fault = fault; place = place; eui = None } }
{
    PlacedFault {
        fault,
        place,
        eui: None,
    }
}

// A fault of the device that a value describes, at this place.
fn in_device(
    alloc: Global,
    place: usize,
    value: &Value,
    fault: RosterFault,
) -> Result<PlacedFault, AllocError>
    ensures { IfOk result (λ f. placed_view f ≡ in_device place (view value.now) fault) }
{
    let eui = match text_at(value, "dev_eui") {
        Some(text) => Some(String::from_str(alloc, text)?),
        None => None,
    };
    Ok(PlacedFault {
        fault,
        place: Place::Device(place, wrong_field(value, fault)),
        eui,
    })
}

// The first fault of the devices.
fn fault_of_devices(
    alloc: Global,
    version: u64,
    values: &[Value],
) -> Result<Option<PlacedFault>, AllocError>
    ensures { IfOk result (λ f. option_map placed_view f ≡ fault_from version [] 1 (map view values.now)) }
{
    let mut devices = Vec::new(alloc);
    let mut by_eui = HashMap::new(alloc);
    for (index, value) in values.iter().enumerate() {
        match add_value(version, &mut devices, &mut by_eui, value) {
            Ok(()) => {}
            Err(RosterFault::NoMemory) => return Err(AllocError),
            Err(fault) => return Ok(Some(in_device(alloc, index + 1, value, fault)?)),
        }
    }
    Ok(None)
}

// The first fault of a value.
fn fault_in(alloc: Global, root: &Value) -> Result<Option<PlacedFault>, AllocError>
    ensures { IfOk result (λ f. option_map placed_view f ≡ fault_in (view root.now)) }
{
    let outer = match outer_of(root) {
        Ok(outer) => outer,
        Err(fault) => return Ok(Some(beside(fault, Place::Outer(wrong_outer(root))))),
    };
    if outer.net_id.0 > MAX_NET_ID {
        return Ok(Some(beside(RosterFault::NetId, Place::Outer(OuterField::NetId))));
    }
    if outer.devices.len() > MAX_DEVICES {
        return Ok(Some(beside(RosterFault::TooMany, Place::Outer(OuterField::Devices))));
    }
    fault_of_devices(alloc, outer.version, outer.devices)
}

/// The first fault of a roster's text, which is the one that `Roster::read` refuses it for, and what it is about; None where the text
/// is a roster. Refused only where memory ran out.
pub fn first_fault(alloc: Global, bytes: &[u8]) -> Result<Option<PlacedFault>, AllocError>
    ensures placed { IfOk result (λ f. option_map placed_view f ≡ first_fault bytes.now) }
    ensures refused { IfOk result (λ f. option_map (λ p. p.fault) f ≡ refusal_of (roster_of bytes.now)) }
{
    match value_of(alloc, bytes)? {
        Some(root) => fault_in(alloc, &root),
        None => Ok(Some(beside(RosterFault::NotJson, Place::Text))),
    }
}
