//! The parts of a roster's text, as each reader of one takes them.

ghost use Rattle.std.specs.Prelude.{◌≡◌, ◌+◌, ◌≤◌, length, map, [], OnOk, IfOk, IfSome, option_map};
ghost use Rattle.std.specs.Option.{ok_or};
ghost use Rattle.serde_json.specs.View.{view};
ghost use Rattle.ns_types.specs.Results.{Gives, GivesExactly};
ghost use Rattle.ns_roster.specs.declared.fault.RosterFault.TheVariants.{Field, NoMemory};
ghost use Rattle.ns_roster.specs.Text.{eui_at, net_id_at, outer_of, is_version, last_nonce_of, device_of, with_device, with_value, devices_from};
ghost use Rattle.ns_roster.specs.Valid.{max_slot, AreDevices};
ghost use Rattle.ns_roster.specs.Held.{Indexes, outer_view};

use crate::Device;
use crate::fault::RosterFault;
use crate::field::{hex_bytes, is_missing, list_at, text_at, whole_at};
use ns_types::{DevEui, DevNonce, JoinEui, NetId};
use serde_json::Value;
use std::alloc::Global;
use std::collections::HashMap;

const VERSION_1: u64 = 1;

// In this version a device may name its last nonce.
const VERSION_2: u64 = 2;

/// The greatest Rx1DrOffset.
pub const MAX_RX1_OFFSET: u64 = 5;
/// The greatest delay of the first receive window, in seconds.
pub const MAX_RX_DELAY: u64 = 15;

const MAX_SLOT: u64 = 0x1F_FFFF;

const MAX_NONCE: u64 = 0xFFFF;

/// The EUI at a key.
pub fn eui_at(value: &Value, key: &str) -> Option<u64>
    ensures { result ≡ eui_at key.now (view value.now) }
{
    let bytes = hex_bytes::<8>(text_at(value, key)?)?;
    Some(u64::from_be_bytes(bytes))
}

/// The NetID at a key.
pub fn net_id_at(value: &Value, key: &str) -> Option<u32>
    ensures { result ≡ net_id_at key.now (view value.now) }
{
    let bytes = hex_bytes::<3>(text_at(value, key)?)?;
    Some(u32::from_be_bytes([0, bytes[0], bytes[1], bytes[2]]))
}

/// The outer fields, and the values of the devices.
#[derive(Drop)]
pub struct Outer<'a> {
    pub version: u64,
    pub net_id: NetId,
    pub rx1_offset: u8,
    pub rx_delay: u8,
    pub devices: &'a [Value],
}

/// Whether a text may be of this version.
pub fn is_version(version: u64) -> bool
    ensures { result ≡ is_version version }
{
    version == VERSION_1 || version == VERSION_2
}

// The outer fields of a value, where each is there and in its range.
#[tactic(auto, using(crate::proofs::TextLemmas::items_list_of_items), unfolding(crate::specs::Text::outer_of))]
fn outer_at(root: &Value) -> Option<Outer<'_>>
    ensures gives { ok_or (option_map outer_view result) Field ≡ outer_of (view root.now) }
    ensures within { IfSome result (λ o. (o.rx1_offset ≤ 5) × (o.rx_delay ≤ 15)) }
{
    let version = whole_at(root, "version")?;
    let net_id = net_id_at(root, "net_id")?;
    let rx1_offset = whole_at(root, "rx1_offset")?;
    let rx_delay = whole_at(root, "rx_delay")?;
    let devices = list_at(root, "devices")?;
    if !is_version(version) || rx1_offset > MAX_RX1_OFFSET || rx_delay > MAX_RX_DELAY {
        return None;
    }
    Some(Outer {
        version,
        net_id: NetId(net_id),
        rx1_offset: rx1_offset as u8,
        rx_delay: rx_delay as u8,
        devices: devices.as_slice(),
    })
}

/// The outer fields of a value. It takes no memory.
pub fn outer_of(root: &Value) -> Result<Outer<'_>, RosterFault>
    ensures gives { GivesExactly outer_view result (outer_of (view root.now)) }
    ensures within { IfOk result (λ o. (o.rx1_offset ≤ 5) × (o.rx_delay ≤ 15)) }
{
    outer_at(root).ok_or(RosterFault::Field)
}

// The last nonce that a device names, in a text of this version. It takes no memory.
fn last_nonce_of(version: u64, value: &Value) -> Result<Option<DevNonce>, RosterFault>
    ensures { GivesExactly (λ n. n) result (last_nonce_of version (view value.now)) }
{
    if version != VERSION_2 || is_missing(value, "last_nonce") {
        return Ok(None);
    }
    let nonce = whole_at(value, "last_nonce").ok_or(RosterFault::Field)?;
    if nonce > MAX_NONCE {
        return Err(RosterFault::Field);
    }
    Ok(Some(DevNonce(nonce as u16)))
}

// The device that a value describes, in a text of this version. It takes no memory.
#[tactic(auto, unfolding(crate::specs::Text::device_of))]
fn device_of(version: u64, value: &Value) -> Result<Device, RosterFault>
    ensures gives { GivesExactly (λ d. d) result (device_of version (view value.now)) }
    ensures slot { IfOk result (λ d. d.slot ≤ max_slot) }
{
    let eui = eui_at(value, "dev_eui").ok_or(RosterFault::Field)?;
    let join_eui = eui_at(value, "join_eui").ok_or(RosterFault::Field)?;
    let slot = whole_at(value, "slot").ok_or(RosterFault::Field)?;
    let last_nonce = last_nonce_of(version, value)?;
    if slot > MAX_SLOT {
        return Err(RosterFault::Slot);
    }
    Ok(Device {
        eui: DevEui(eui),
        join_eui: JoinEui(join_eui),
        slot: slot as u32,
        last_nonce,
    })
}

// Adds a device that none of the others has the DevEUI of.
fn add(
    devices: &mut Vec<Device>,
    by_eui: &mut HashMap<u64, Device>,
    device: Device,
) -> Result<(), RosterFault>
    requires indexed { Indexes by_eui.old devices.old.items }
    requires valid { AreDevices devices.old.items }
    requires slot { device.slot ≤ max_slot }
    ensures gives { Gives NoMemory (λ _. devices.new.items) result (with_device devices.old.items device) }
    ensures indexed { OnOk result (Indexes by_eui.new devices.new.items) }
    ensures valid { OnOk result (AreDevices devices.new.items) }
    ensures len { OnOk result (length devices.new.items ≡ length devices.old.items + 1) }
{
    if by_eui.contains_key(&device.eui.0) {
        return Err(RosterFault::Twice);
    }
    by_eui.insert(device.eui.0, device)?;
    devices.push(device)?;
    Ok(())
}

/// Adds the device that a value describes, in a text of this version, to devices that are valid, and to the map that has each of them at
/// its DevEUI. What it leaves after a fault is of no use.
pub fn add_value(
    version: u64,
    devices: &mut Vec<Device>,
    by_eui: &mut HashMap<u64, Device>,
    value: &Value,
) -> Result<(), RosterFault>
    requires indexed { Indexes by_eui.old devices.old.items }
    requires valid { AreDevices devices.old.items }
    ensures gives { Gives NoMemory (λ _. devices.new.items) result
        (with_value version devices.old.items (view value.now)) }
    ensures indexed { OnOk result (Indexes by_eui.new devices.new.items) }
    ensures valid { OnOk result (AreDevices devices.new.items) }
    ensures len { OnOk result (length devices.new.items ≡ length devices.old.items + 1) }
{
    let device = device_of(version, value)?;
    add(devices, by_eui, device)
}

// The devices that the values describe, and each at its DevEUI.
pub(crate) fn read_devices(
    alloc: Global,
    version: u64,
    values: &[Value],
) -> Result<(Vec<Device>, HashMap<u64, Device>), RosterFault>
    ensures gives { Gives NoMemory (λ r. r.0.items) result (devices_from version [] (map view values.now)) }
    ensures indexed { IfOk result (λ r. Indexes r.1 r.0.items) }
    ensures valid { IfOk result (λ r. AreDevices r.0.items) }
    ensures len { IfOk result (λ r. length r.0.items ≡ length values.now) }
{
    let mut devices = Vec::new(alloc);
    let mut by_eui = HashMap::new(alloc);
    for value in values {
        add_value(version, &mut devices, &mut by_eui, value)?;
    }
    Ok((devices, by_eui))
}
