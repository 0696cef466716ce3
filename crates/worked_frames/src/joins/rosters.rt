//! What a roster lends, and the readers of its fields.

ghost use Rattle.std.specs.Prelude.{Contains};

use crate::joins::text::eui;
use crate::put::{put, put_hex, put_made, put_number, show};
use ns_roster::field::{eui_text, hex_bytes, list_at, net_id_text, text_at, value_of, whole_at};
use ns_roster::{Device, Roster};
use ns_roster_place::first_fault;
use ns_types::{DevEui, DevNonce, JoinEui};
use std::alloc::{AllocError, Global};
use std::fmt::{Debug, Write};

// Adds a device of a roster: DevEUI, JoinEUI, slot, last nonce and address.
fn add_device(alloc: Global, line: &mut String, roster: &Roster, device: &Device)
    requires { Contains roster.now.devices device.now }
{
    put_made(line, eui_text(alloc, device.eui.0));
    put(line, " ");
    put_made(line, eui_text(alloc, device.join_eui.0));
    put_number(line, " ", device.slot, " ");
    match device.last_nonce {
        Some(nonce) => show(line, nonce.0),
        None => put(line, "-"),
    }
    put(line, " ");
    put_hex(alloc, line, &roster.device_addr(device).0.to_be_bytes());
}

/// Puts what a roster holds, a line for the network and for each device.
pub fn put_roster(alloc: Global, roster: &Roster, lines: &mut String) {
    put_made(lines, net_id_text(alloc, roster.net_id()));
    put_number(lines, " ", roster.rx1_offset(), " ");
    show(lines, roster.rx_delay());
    for device in roster.devices() {
        put(lines, "\n");
        add_device(alloc, lines, roster, device);
    }
}

/// Puts what a text's roster holds, or the first fault of the text.
pub fn roster(alloc: Global, text: &[u8], out: &mut String) {
    match Roster::read(alloc, text) {
        Ok(roster) => put_roster(alloc, &roster, out),
        Err(fault) => show(out, fault),
    }
}

/// Puts what the first fault of a text is about, in words, and the fault.
pub fn place(alloc: Global, text: &[u8], out: &mut String) {
    match first_fault(alloc, text) {
        Ok(Some(placed)) => {
            let _ = write!(out, "{placed}: {}", placed.fault);
        }
        Ok(None) => put(out, "no fault"),
        Err(_) => put(out, "no memory"),
    }
}

/// Puts the closing text of a roster with the last nonces that it has, or the first fault of its text.
pub fn closing(alloc: Global, text: &[u8], out: &mut String) {
    match Roster::read(alloc, text) {
        Ok(roster) => put_closing(alloc, &roster, out),
        Err(fault) => show(out, fault),
    }
}

// Puts the closing text of a roster with the last nonces that it has.
fn put_closing(alloc: Global, roster: &Roster, out: &mut String) {
    let last = roster.devices().iter().map(|device| device.last_nonce);
    let nonces: Result<Vec<Option<DevNonce>>, AllocError> = last.collect(alloc);
    if let Ok(nonces) = nonces {
        put_made(out, roster.closing(alloc, nonces.as_slice()));
    }
}

/// Puts the device of a roster with this DevEUI.
pub fn found(alloc: Global, roster: &Roster, digits: &str, out: &mut String) {
    match roster.find(DevEui(eui(digits))) {
        Some(device) => add_device(alloc, out, roster, device),
        None => put(out, "no device"),
    }
}

/// Puts whether a roster has a device of this DevEUI and JoinEUI.
pub fn known(roster: &Roster, euis: &str, out: &mut String) {
    let (dev_eui, join_eui) = euis.split_once(" ").unwrap_or((euis, ""));
    let known = roster.knows(DevEui(eui(dev_eui)), JoinEui(eui(join_eui)));
    put(out, if known { "yes" } else { "no" });
}

/// Puts what the readers of fields find at a key: a whole number, a text, how long a list is; and two and three bytes in the text's hex.
pub fn field(alloc: Global, text: &[u8], key: &str, out: &mut String) {
    match value_of(alloc, text) {
        Ok(Some(value)) => {
            let found = text_at(&value, key);
            put_found("", whole_at(&value, key), out);
            put_found(" ", found, out);
            put_found(" ", list_at(&value, key).map(|list| list.len()), out);
            put_found(" ", found.and_then(hex_bytes::<2>), out);
            put_found(" ", found.and_then(hex_bytes::<3>), out);
        }
        _ => put(out, "no JSON"),
    }
}

// Puts what is found behind a text.
fn put_found<D: Debug + Drop>(before: &str, found: D, out: &mut String) {
    let _ = write!(out, "{before}{found:?}");
}
