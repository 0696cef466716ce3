//! The text of a roster with last nonces, from which the next run begins.

ghost use Rattle.std.specs.Prelude.{◌≡◌, ◌≤◌, ◌<◌, ◌^◌, Ok, IfOk, OnOk, length, map, string_bytes};
ghost use Rattle.serde_json.specs.View.{view, items_view, members_view};
ghost use Rattle.ns_roster.specs.Closing.{device_value, network_members, network_value, network_text, devices_with, with_nonces};
ghost use Rattle.ns_roster.specs.Spelled.{SpellsDevice, SpellDevices};
ghost use Rattle.ns_roster.specs.Text.{roster_of};
ghost use Rattle.ns_roster.specs.Valid.{max_nonce};
ghost use Rattle.ns_roster.specs.declared.object.Scalar.TheVariants as scalar;

use crate::field::net_id_text;
use crate::object::Scalar::{Eui, Text, Whole};
use crate::object::{Scalar, members_of, object_of};
use crate::{Device, Roster};
use ns_types::DevNonce;
use serde_json::{Map, Value};
use std::alloc::{AllocError, Global};

const VERSION: u64 = 2;

// The scalar of an EUI, which fits 64 bits.
fn eui_scalar(eui: u64) -> Scalar<'static>
    ensures is { result ≡ scalar.Eui eui }
    ensures fits { eui < 2 ^ 64 }
{
    Eui(eui)
}

// The scalar of a last nonce, which fits 16 bits.
fn nonce_scalar(nonce: u16) -> Scalar<'static>
    ensures is { result ≡ scalar.Whole nonce }
    ensures fits { nonce ≤ max_nonce }
{
    Whole(nonce as u64)
}

// The value of a device, which spells it.
fn device_value(alloc: Global, device: Device) -> Result<Value, AllocError>
    ensures value { IfOk result (λ v. view v ≡ device_value device) }
    ensures spells { SpellsDevice 2 (device_value device) device }
{
    let dev_eui = ("dev_eui", eui_scalar(device.eui.0));
    let join_eui = ("join_eui", eui_scalar(device.join_eui.0));
    let slot = ("slot", Whole(device.slot as u64));
    match device.last_nonce {
        Some(nonce) => {
            let last_nonce = ("last_nonce", nonce_scalar(nonce.0));
            object_of(alloc, &[dev_eui, join_eui, last_nonce, slot])
        }
        None => object_of(alloc, &[dev_eui, join_eui, slot]),
    }
}

// The values of the devices with these last nonces, which spell them.
fn values_of(
    alloc: Global,
    devices: &[Device],
    nonces: &[Option<DevNonce>],
) -> Result<Vec<Value>, AllocError>
    requires { length nonces.now ≡ length devices.now }
    ensures values { IfOk result
        (λ vs. map view vs.items ≡ map device_value (devices_with devices.now nonces.now)) }
    ensures spell { OnOk result
        (SpellDevices 2 (map device_value (devices_with devices.now nonces.now)) (devices_with devices.now nonces.now)) }
{
    let mut values = Vec::with_capacity(alloc, devices.len())?;
    for (place, device) in devices.iter().enumerate() {
        let device = Device {
            last_nonce: nonces[place],
            ..*device
        };
        values.push(device_value(alloc, device)?)?;
    }
    Ok(values)
}

// The fields of a roster beside its devices.
fn fields_of(alloc: Global, roster: &Roster) -> Result<Map<String, Value>, AllocError>
    ensures { IfOk result (λ m. members_view m.entries ≡ network_members roster.now) }
{
    let net_id = net_id_text(alloc, roster.net_id())?;
    members_of(
        alloc,
        &[
            ("net_id", Text(net_id.as_str())),
            ("rx1_offset", Whole(roster.rx1_offset() as u64)),
            ("rx_delay", Whole(roster.rx_delay() as u64)),
            ("version", Whole(VERSION)),
        ],
    )
}

// The value of a roster with the values of its devices.
fn network_value(alloc: Global, roster: &Roster, devices: Vec<Value>) -> Result<Value, AllocError>
    ensures { IfOk result (λ v. view v ≡ network_value roster.now (items_view devices.items)) }
{
    let mut members = fields_of(alloc, roster)?;
    serde_json::put(&mut members, alloc, "devices", Value::Array(devices))?;
    Ok(Value::Object(members))
}

impl Roster {
    /// The text of this roster with these last nonces, one for each device in order: version 2 as compact JSON with its keys
    /// in byte order, without `last_nonce` where there is none. It is read to the roster with these nonces. Refused only where
    /// memory ran out.
    pub fn closing(&self, alloc: Global, nonces: &[Option<DevNonce>]) -> Result<String, AllocError>
        requires { length nonces.now ≡ length self.now.devices }
        ensures text { IfOk result
            (λ s. string_bytes s ≡ network_text (with_nonces self.now nonces.now)) }
        ensures reads_back { IfOk result
            (λ s. roster_of (string_bytes s) ≡ Ok (with_nonces self.now nonces.now)) }
    {
        let devices = values_of(alloc, self.devices(), nonces)?;
        network_value(alloc, self, devices)?.to_string(alloc)
    }
}
