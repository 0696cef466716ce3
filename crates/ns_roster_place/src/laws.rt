//! Laws of places, as contracts of functions that do nothing.

ghost use Rattle.std.specs.Prelude.{◌≡◌, ℕ, Err};
ghost use Rattle.serde_json.specs.Data.{Data};
ghost use Rattle.ns_roster.specs.declared.fault.RosterFault.{RosterFault};
ghost use Rattle.ns_roster.specs.Text.{outer_of, device_of};
ghost use Rattle.ns_roster_place.specs.Outer.{wrong_outer};
ghost use Rattle.ns_roster_place.specs.Device.{wrong_field};
ghost use Rattle.ns_roster_place.specs.Wrong.{IsWrongOuter, IsWrongField};

/// The outer field that a fault is said to be about is missing or wrong.
pub fn named_outer_fields_are_wrong()
    ensures { (d : Data) (f : RosterFault) → outer_of d ≡ Err f → IsWrongOuter d (wrong_outer d) }
{}

/// The field of a device that a fault of its own is said to be about is missing or wrong. (The DevEUI of a device of which an earlier one
/// has it is no such field: the device alone is right.)
pub fn named_device_fields_are_wrong()
    ensures { (version : ℕ) (d : Data) (f : RosterFault) → device_of version d ≡ Err f → IsWrongField version d (wrong_field d f) }
{}
