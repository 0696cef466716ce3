//! What a join server is asked.

ghost use Rattle.std.specs.Prelude.{◌≡◌, IfOk, OnOk, Contains, string_bytes};
ghost use Rattle.serde_json.specs.View.{view};
ghost use Rattle.ns_joinwire.specs.JoinReq.{dl_settings, fields_of, message, joinreq, AsksAbout};
ghost use Rattle.ns_joinwire.specs.Private.Held.{fields_view};
ghost use Rattle.hex.specs.Hex.{encode_lower};
ghost use Rattle.ns_roster.specs.Field.{hex_bytes, hex_number};
ghost use Rattle.ns_roster.specs.Network.{device_addr};

use ns_roster::field::{eui_text, net_id_text};
use ns_roster::object::Scalar::{Text, Whole, Word};
use ns_roster::object::object_of;
use ns_roster::{Device, Roster};
use ns_types::{Ticket, addr_of};
use serde_json::Value;
use std::alloc::{AllocError, Global};

// The fields of a message that differ from one to another, as they are written.
#[derive(Drop)]
struct Fields {
    settings: String,
    dev_addr: String,
    dev_eui: String,
    frame: String,
    join_eui: String,
    rx_delay: u8,
    net_id: String,
    transaction: u32,
}

// DLSettings: RX1DROffset in bits 6 to 4, and RX2DataRate 0.
fn settings_text(alloc: Global, roster: &Roster) -> Result<String, AllocError>
    ensures { IfOk result (λ s. string_bytes s ≡ hex_number 1 (dl_settings roster.now)) }
{
    hex::encode(alloc, [16 * roster.rx1_offset()])
}

// The address that the device gets.
fn addr_text(alloc: Global, roster: &Roster, device: &Device) -> Result<String, AllocError>
    requires { Contains roster.now.devices device.now }
    ensures { IfOk result
        (λ s. string_bytes s ≡ hex_number 4 (device_addr roster.now device.now).0) }
{
    let addr = addr_of(roster.net_id(), device.eui, device.slot);
    hex::encode(alloc, addr.0.to_be_bytes())
}

// The Join-Request. It is read back.
fn frame_text(alloc: Global, frame: &[u8; 23]) -> Result<String, AllocError>
    ensures text { IfOk result (λ s. string_bytes s ≡ encode_lower frame.now) }
    ensures reads_back { hex_bytes 23 (encode_lower frame.now) ≡ Some frame.now }
{
    hex::encode(alloc, frame.as_slice())
}

// The fields of a device's Join-Request.
fn fields_of(
    alloc: Global,
    roster: &Roster,
    device: &Device,
    ticket: &Ticket,
) -> Result<Fields, AllocError>
    requires { Contains roster.now.devices device.now }
    ensures value { IfOk result (λ f. fields_view f ≡ fields_of roster.now device.now ticket.now) }
    ensures frame { OnOk result (hex_bytes 23 (encode_lower ticket.now.0) ≡ Some ticket.now.0) }
{
    Ok(Fields {
        settings: settings_text(alloc, roster)?,
        dev_addr: addr_text(alloc, roster, device)?,
        dev_eui: eui_text(alloc, device.eui.0)?,
        frame: frame_text(alloc, &ticket.0)?,
        join_eui: eui_text(alloc, device.join_eui.0)?,
        rx_delay: roster.rx_delay(),
        net_id: net_id_text(alloc, roster.net_id())?,
        transaction: ticket.transaction(),
    })
}

// The message with some fields.
fn message(alloc: Global, fields: &Fields) -> Result<Value, AllocError>
    ensures { IfOk result (λ v. view v ≡ message (fields_view fields.now)) }
{
    object_of(
        alloc,
        &[
            ("DLSettings", Text(fields.settings.as_str())),
            ("DevAddr", Text(fields.dev_addr.as_str())),
            ("DevEUI", Text(fields.dev_eui.as_str())),
            ("MACVersion", Word("1.0.4")),
            ("MessageType", Word("JoinReq")),
            ("PHYPayload", Text(fields.frame.as_str())),
            ("ProtocolVersion", Word("1.0")),
            ("ReceiverID", Text(fields.join_eui.as_str())),
            ("RxDelay", Whole(fields.rx_delay as u64)),
            ("SenderID", Text(fields.net_id.as_str())),
            ("TransactionID", Whole(fields.transaction as u64)),
        ],
    )
}

/// The text that asks the device's join server about a Join-Request (TS002, JoinReq): compact JSON with its keys in byte order
/// and hex in lower case. Refused only where memory ran out.
pub fn join_req(
    alloc: Global,
    roster: &Roster,
    device: &Device,
    ticket: &Ticket,
) -> Result<String, AllocError>
    requires { Contains roster.now.devices device.now }
    ensures text { IfOk result (λ s. string_bytes s ≡ joinreq roster.now device.now ticket.now) }
    ensures asks { IfOk result (λ s. AsksAbout ticket.now (string_bytes s)) }
{
    let fields = fields_of(alloc, roster, device, ticket)?;
    message(alloc, &fields)?.to_string(alloc)
}
