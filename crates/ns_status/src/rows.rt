//! The lists of devices and of gateways, in JSON, which are written in pieces: the front, rows, and the end.

ghost use Rattle.std.specs.Prelude.{◌≡◌, ◌++◌, map, false, decimal, string_bytes, IfOk, OnOk};
ghost use Rattle.serde_json.specs.View.{view};
ghost use Rattle.serde_json.specs.Written.{compact_text, has_float};
ghost use Rattle.ns_roster.specs.Field.{hex_number};
ghost use Rattle.ns_roster.specs.Object.{scalar_data};
ghost use Rattle.ns_status.specs.Rows.{front_text, end_text, whole_data, heard_gateway_data, heard_ms_data, joined_data, unjoined_data, device_data, gateway_data, row_text, rows_text, device_row, gateway_row};

use crate::devices::{Device, HeardBy};
use crate::gateways::Gateway;
use crate::parts::put_parts;
use itoa::Buffer;
use ns_roster::object::Scalar::{Eui, Null, Text, Whole};
use ns_roster::object::{Scalar, object_of};
use ns_types::{DevAddr, DevEui, GatewayId};
use serde_json::Value;
use std::alloc::{AllocError, Global};

/// Puts what stands before the rows: at which moment of the server's clock they were read, when that clock was 0, in milliseconds since
/// 1970, and the name of the list.
pub fn put_front(
    text: &mut String,
    name: &str,
    now_ms: u64,
    start_ms: u64,
) -> Result<(), AllocError>
    ensures { OnOk result (string_bytes text.new ≡ string_bytes text.old ++ front_text name.now now_ms start_ms) }
{
    let mut now = Buffer::new();
    let mut start = Buffer::new();
    put_parts(
        text,
        &[
            "{\"nowMs\":",
            now.format(now_ms),
            ",\"startMs\":",
            start.format(start_ms),
            ",\"",
            name,
            "\":[",
        ],
    )
}

/// Puts what stands behind the rows.
pub fn put_end(text: &mut String) -> Result<(), AllocError>
    ensures { OnOk result (string_bytes text.new ≡ string_bytes text.old ++ end_text) }
{
    text.push_str("\n]}\n")
}

// The text of an address.
fn addr_text(alloc: Global, addr: DevAddr) -> Result<String, AllocError>
    ensures { IfOk result (λ s. string_bytes s ≡ hex_number 4 addr.0) }
{
    hex::encode(alloc, addr.0.to_be_bytes())
}

// A number that may be unknown.
fn whole<'a>(number: Option<u64>) -> Scalar<'a>
    ensures { scalar_data result ≡ whole_data number }
{
    match number {
        Some(number) => Whole(number),
        None => Null,
    }
}

// The greatest counter of a device.
fn fcnt<'a>(fcnt: Option<u32>) -> Scalar<'a>
    ensures { scalar_data result ≡ whole_data fcnt }
{
    match fcnt {
        Some(fcnt) => Whole(fcnt as u64),
        None => Null,
    }
}

// Who heard a device.
fn heard_gateway<'a>(heard: Option<HeardBy>) -> Scalar<'a>
    ensures { scalar_data result ≡ heard_gateway_data heard }
{
    match heard {
        Some(heard) => Eui(heard.gateway.0),
        None => Null,
    }
}

// When a device was heard.
fn heard_ms<'a>(heard: Option<HeardBy>) -> Scalar<'a>
    ensures { scalar_data result ≡ heard_ms_data heard }
{
    match heard {
        Some(heard) => Whole(heard.at_ms),
        None => Null,
    }
}

// The value of a device that joined.
fn joined_value(alloc: Global, eui: DevEui, device: &Device) -> Result<Value, AllocError>
    ensures { IfOk result (λ v. view v ≡ joined_data eui device.now) }
{
    let dev_addr = addr_text(alloc, device.addr)?;
    object_of(
        alloc,
        &[
            ("devAddr", Text(dev_addr.as_str())),
            ("devEui", Eui(eui.0)),
            ("fCnt", fcnt(device.fcnt)),
            ("gatewayId", heard_gateway(device.heard)),
            ("heardMs", heard_ms(device.heard)),
            ("missed", Whole(device.missed())),
            ("session", Whole(device.session as u64)),
            ("sinceMs", whole(device.since_ms)),
        ],
    )
}

// The value of a device of which no session is known.
fn unjoined_value(alloc: Global, eui: DevEui) -> Result<Value, AllocError>
    ensures { IfOk result (λ v. view v ≡ unjoined_data eui) }
{
    object_of(
        alloc,
        &[
            ("devAddr", Null),
            ("devEui", Eui(eui.0)),
            ("fCnt", Null),
            ("gatewayId", Null),
            ("heardMs", Null),
            ("missed", Whole(0)),
            ("session", Null),
            ("sinceMs", Null),
        ],
    )
}

// The value of a device.
fn device_value(alloc: Global, eui: DevEui, device: &Option<Device>) -> Result<Value, AllocError>
    ensures { IfOk result (λ v. view v ≡ device_data eui device.now) }
{
    match device {
        Some(device) => joined_value(alloc, eui, device),
        None => unjoined_value(alloc, eui),
    }
}

// The value of a gateway.
fn gateway_value(
    alloc: Global,
    id: GatewayId,
    gateway: &Gateway,
    now_ms: u64,
) -> Result<Value, AllocError>
    ensures { IfOk result (λ v. view v ≡ gateway_data now_ms id gateway.now) }
{
    object_of(
        alloc,
        &[
            ("airtimeMs", Whole(gateway.airtime.spent(now_ms) / 1000)),
            ("frames", Whole(gateway.frames)),
            ("gatewayId", Eui(id.0)),
            ("heardMs", whole(gateway.frame_ms)),
            ("pullMs", whole(gateway.pull_ms)),
            ("refused", Whole(gateway.refused)),
            ("sent", Whole(gateway.sent)),
            ("statMs", whole(gateway.stat_ms)),
        ],
    )
}

// The text of a row.
fn text_of(alloc: Global, row: Value) -> Result<String, AllocError>
    requires { has_float (view row) ≡ false }
    ensures { IfOk result (λ s. string_bytes s ≡ compact_text (view row)) }
{
    row.to_string(alloc)
}

// Puts a row, on a line of its own, with a comma before all but the first.
fn put_row(alloc: Global, text: &mut String, is_first: bool, row: Value) -> Result<(), AllocError>
    requires { has_float (view row) ≡ false }
    ensures { OnOk result (string_bytes text.new ≡ string_bytes text.old ++ row_text is_first (view row)) }
{
    let row = text_of(alloc, row)?;
    text.push_str(if is_first { "\n" } else { ",\n" })?;
    text.push_str(row.as_str())
}

/// Puts rows of devices, of which the first is the first of the list or not.
pub fn put_devices(
    alloc: Global,
    text: &mut String,
    is_first: bool,
    devices: &[(DevEui, Option<Device>)],
) -> Result<(), AllocError>
    ensures { OnOk result (string_bytes text.new ≡ string_bytes text.old ++ rows_text is_first (map device_row devices.now)) }
{
    let mut is_first = is_first;
    for row in devices {
        put_row(alloc, text, is_first, device_value(alloc, row.0, &row.1)?)?;
        is_first = false;
    }
    Ok(())
}

// Puts the row of a gateway.
fn put_gateway(
    alloc: Global,
    text: &mut String,
    is_first: bool,
    id: GatewayId,
    gateway: &Gateway,
    now_ms: u64,
) -> Result<(), AllocError>
    ensures { OnOk result (string_bytes text.new ≡ string_bytes text.old ++ row_text is_first (gateway_data now_ms id gateway.now)) }
{
    let row = gateway_value(alloc, id, gateway, now_ms)?;
    put_row(alloc, text, is_first, row)
}

/// Puts rows of gateways at a moment of the server's clock, of which the first is the first of the list or not.
pub fn put_gateways(
    alloc: Global,
    text: &mut String,
    is_first: bool,
    gateways: &[(GatewayId, Gateway)],
    now_ms: u64,
) -> Result<(), AllocError>
    ensures { OnOk result (string_bytes text.new ≡ string_bytes text.old ++ rows_text is_first (map (gateway_row now_ms) gateways.now)) }
{
    let mut is_first = is_first;
    for row in gateways {
        put_gateway(alloc, text, is_first, row.0, &row.1, now_ms)?;
        is_first = false;
    }
    Ok(())
}
