//! The device and the join server for tests.

use crate::joins::text::eui;
use crate::put::{put, put_hex, show};
use ns_device::{TestDevice, TestJoinServer};
use ns_roster::field::hex_bytes;
use ns_types::{DevEui, DevNonce, JoinEui, Key};
use std::alloc::Global;

// The greatest JoinNonce.
const MAX_JOIN_NONCE: u32 = 0xFF_FFFF;

// The key of 32 hex digits.
fn key(digits: &str) -> Key {
    Key(hex_bytes::<16>(digits).unwrap_or([0; 16]))
}

/// A device that has not joined, of a DevEUI, a JoinEUI and an AppKey.
pub fn device(text: &str) -> TestDevice {
    let (dev_eui, rest) = text.split_once(" ").unwrap_or((text, ""));
    let (join_eui, app_key) = rest.split_once(" ").unwrap_or((rest, ""));
    TestDevice::new(DevEui(eui(dev_eui)), JoinEui(eui(join_eui)), key(app_key))
}

/// A join server that knows no device, and whose first JoinNonce this is.
pub fn server(alloc: Global, nonce: &str) -> TestJoinServer {
    match nonce.parse::<u32>() {
        Ok(nonce) if 1 <= nonce && nonce <= MAX_JOIN_NONCE => {
            TestJoinServer::with_join_nonce(alloc, nonce)
        }
        _ => TestJoinServer::new(alloc),
    }
}

/// Makes a device known to a join server: its DevEUI and AppKey.
pub fn add(server: &mut TestJoinServer, text: &str) {
    let (dev_eui, app_key) = text.split_once(" ").unwrap_or((text, ""));
    let _ = server.add(DevEui(eui(dev_eui)), key(app_key));
}

/// Puts what a join server answers to a text.
pub fn reply(alloc: Global, server: &mut TestJoinServer, text: &[u8], out: &mut String) {
    match server.reply(alloc, text) {
        Ok(reply) => put(out, reply.as_str()),
        Err(fault) => show(out, fault),
    }
}

/// Puts a device's Join-Request of a nonce.
pub fn join_request(alloc: Global, device: &TestDevice, nonce: &str, out: &mut String) {
    let nonce = DevNonce(nonce.parse::<u16>().unwrap_or(0));
    put_hex(alloc, out, &device.join_request(nonce));
}

/// Puts what comes of a Join-Accept that answers the Join-Request of a nonce: the session's address, NwkSKey and AppSKey.
pub fn accept(alloc: Global, device: &mut TestDevice, text: &str, out: &mut String) {
    let (nonce, frame) = text.split_once(" ").unwrap_or((text, ""));
    let nonce = DevNonce(nonce.parse::<u16>().unwrap_or(0));
    match hex_bytes::<17>(frame) {
        Some(frame) => match device.accept(nonce, &frame) {
            Ok(()) => session(alloc, device, out),
            Err(fault) => show(out, fault),
        },
        None => put(out, "no frame"),
    }
}

// Puts the session of a device: its address, NwkSKey and AppSKey.
fn session(alloc: Global, device: &TestDevice, out: &mut String) {
    match device.session() {
        Some(session) => {
            put_hex(alloc, out, &session.addr.0.to_be_bytes());
            put(out, " ");
            put_hex(alloc, out, &session.nwk.0);
            put(out, " ");
            put_hex(alloc, out, &session.app.0);
        }
        None => put(out, "no session"),
    }
}
