//! The device for tests.

use crate::frames::answers::Answers;
use crate::frames::ask::Ask;
use crate::frames::created::put_made;
use ns_device::{DeviceFault, TestDevice};
use ns_types::DevNonce;

/// The device of a DevEUI, a JoinEUI and an AppKey.
pub fn device(ask: Ask) -> TestDevice {
    TestDevice::new(ask.dev_eui(), ask.join_eui(), ask.key("root"))
}

/// dev_eui, join_eui, root, nonce: the Join-Request of a device, which stays.
pub fn new(ask: Ask, device_now: &mut TestDevice, out: &mut Answers) {
    *device_now = device(ask);
    out.hex(&device_now.join_request(DevNonce(ask.number("nonce"))));
}

// Puts a fault, and behind it why no frame can be built.
fn put_fault(fault: DeviceFault, out: &mut Answers) {
    out.fault("E", fault.number());
    if let DeviceFault::Create(fault) = fault {
        put_made(Err(fault), out);
    }
}

/// nonce, frame: the fault of a Join-Accept, if any, and the DevAddr, the NwkSKey and the AppSKey of the session, if any.
pub fn accept(ask: Ask, frame: &[u8], device: &mut TestDevice, out: &mut Answers) {
    if let Err(fault) = device.accept(DevNonce(ask.number("nonce")), frame) {
        put_fault(fault, out);
    }
    match device.session() {
        Some(session) => {
            let addr = session.addr.0.to_be_bytes();
            out.all(&[&addr, &session.nwk.0, &session.app.0]);
        }
        None => out.word("none"),
    }
}

/// counter, confirmed, port, payload, room: an uplink, or the fault, and behind it the buffer, which was as `room` says.
pub fn uplink(ask: Ask, plain: &[u8], device: &TestDevice, out: &mut Answers) {
    let mut room = [0; 256];
    let buf = ask.bytes("room", &mut room);
    let (counter, port) = (ask.number("counter"), ask.option("port"));
    match device.uplink(counter, ask.value("confirmed") == "yes", port, plain, buf) {
        Ok(frame) => out.hex(frame),
        Err(fault) => put_fault(fault, out),
    }
    out.hex(buf);
}
