//! Which field beside those of the devices a fault is about.

ghost use Rattle.std.specs.Prelude.{◌≡◌};
ghost use Rattle.serde_json.specs.View.{view};
ghost use Rattle.ns_roster_place.specs.Outer.{is_version_at, is_at_most, wrong_outer};

use crate::place::OuterField;
use ns_roster::field::whole_at;
use ns_roster::reading::{MAX_RX_DELAY, MAX_RX1_OFFSET, is_version, net_id_at};
use serde_json::Value;

// Whether there is a version, and it is one of a roster.
fn is_version_at(root: &Value) -> bool
    ensures { result ≡ is_version_at (view root.now) }
{
    match whole_at(root, "version") {
        Some(version) => is_version(version),
        None => false,
    }
}

// Whether there is a whole number at a key, and it is at most this.
fn is_at_most(value: &Value, key: &str, most: u64) -> bool
    ensures { result ≡ is_at_most key.now most (view value.now) }
{
    match whole_at(value, key) {
        Some(number) => number <= most,
        None => false,
    }
}

/// The first of the outer fields that is missing or wrong.
pub(crate) fn wrong_outer(root: &Value) -> OuterField
    ensures { result ≡ wrong_outer (view root.now) }
{
    if !is_version_at(root) {
        OuterField::Version
    } else if net_id_at(root, "net_id").is_none() {
        OuterField::NetId
    } else if !is_at_most(root, "rx1_offset", MAX_RX1_OFFSET) {
        OuterField::Rx1Offset
    } else if !is_at_most(root, "rx_delay", MAX_RX_DELAY) {
        OuterField::RxDelay
    } else {
        OuterField::Devices
    }
}
