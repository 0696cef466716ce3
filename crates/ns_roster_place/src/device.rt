//! Which field of a device a fault is about.

ghost use Rattle.std.specs.Prelude.{◌≡◌};
ghost use Rattle.serde_json.specs.View.{view};
ghost use Rattle.ns_roster_place.specs.Device.{missing_field, wrong_field};

use crate::place::DeviceField;
use ns_roster::RosterFault;
use ns_roster::field::whole_at;
use ns_roster::reading::eui_at;
use serde_json::Value;

// The first field of a device that is missing or of another kind; the last nonce where the others are neither.
fn missing_field(value: &Value) -> DeviceField
    ensures { result ≡ missing_field (view value.now) }
{
    if eui_at(value, "dev_eui").is_none() {
        DeviceField::DevEui
    } else if eui_at(value, "join_eui").is_none() {
        DeviceField::JoinEui
    } else if whole_at(value, "slot").is_none() {
        DeviceField::Slot
    } else {
        DeviceField::LastNonce
    }
}

/// The field that a fault of a device is about.
pub(crate) fn wrong_field(value: &Value, fault: RosterFault) -> DeviceField
    ensures { result ≡ wrong_field (view value.now) fault }
{
    match fault {
        RosterFault::Slot => DeviceField::Slot,
        RosterFault::Twice => DeviceField::DevEui,
        _ => missing_field(value),
    }
}
