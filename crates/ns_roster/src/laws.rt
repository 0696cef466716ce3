//! Laws of rosters, as contracts of functions that do nothing.

ghost use Rattle.std.specs.Prelude.{◌≡◌, ◌↔◌, ℕ, List, Ok, Some, Contains};
ghost use Rattle.ns_types.specs.declared.identity.DevEui.{DevEui};
ghost use Rattle.ns_types.specs.declared.identity.JoinEui.{JoinEui};
ghost use Rattle.ns_types.specs.Identity.{shard_of, shard_of_addr};
ghost use Rattle.ns_roster.specs.declared.Device.{Device};
ghost use Rattle.ns_roster.specs.Network.{Network, device, device_addr, has_join_eui, is_known};
ghost use Rattle.ns_roster.specs.Spelled.{Spells};
ghost use Rattle.ns_roster.specs.Text.{roster_of};
ghost use Rattle.ns_roster.specs.Valid.{IsRoster};

/// A text is accepted exactly where it spells a valid network, and as that network.
pub fn accepted_exactly()
    ensures { (bytes : List ℕ) (net : Network) → (roster_of bytes ≡ Ok net) ↔ (Spells bytes net × IsRoster net) }
{}

/// The device that is found is one of the devices, and has the DevEUI that was asked for; and a device is found at its DevEUI.
pub fn found_devices()
    ensures { (net : Network) → IsRoster net → (eui : DevEui) (d : Device) → (device net eui ≡ Some d) ↔ (Contains net.devices d × (d.eui ≡ eui)) }
{}

/// A device is known with a JoinEUI exactly where the device that is found has it.
pub fn known_devices()
    ensures { (net : Network) → IsRoster net → (eui : DevEui) (join_eui : JoinEui) → is_known net eui join_eui ≡ has_join_eui join_eui (device net eui) }
{}

/// The address of a device is in the shard of the device.
pub fn addresses_and_shards()
    ensures { (net : Network) → IsRoster net → (d : Device) → Contains net.devices d → shard_of_addr (device_addr net d) ≡ shard_of d.eui }
{}
