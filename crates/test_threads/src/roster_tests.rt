//! Rosters of many devices, and their closing rosters.

use crate::recorded::{LINES, STEPS};
use crate::written::{is_written, text_of};
use ns_roster::{Roster, RosterFault};
use std::alloc::{AllocError, Global};
use std::test::*;

// Which devices a roster has.
#[derive(Clone, Copy)]
enum Devices {
    // 4,096 in each shard, with the DevEUIs from 0 on, but one in place of 14: each slot is shared by sixteen of different shards. The
    // one of DevEUI 13 is that of the recorded run.
    Crowded,
    // The same after the recorded run, which accepts nonce 6.
    Joined,
    // The DevEUIs from 0 on, as their slots; two of three have a last nonce.
    Numbered,
}

// The last nonce of a device.
fn nonce(devices: Devices, number: u32) -> Option<u32> {
    match devices {
        Devices::Joined if number == 13 => Some(6),
        Devices::Numbered if number % 3 > 0 => Some(number),
        _ => None,
    }
}

// The DevEUI and the slot of a device.
fn names(devices: Devices, number: u32) -> (u32, u32) {
    match devices {
        Devices::Numbered => (number, number),
        _ if number == 14 => (65_550, 1_998_321),
        _ => (number, 1_998_321 + number / 16),
    }
}

// The field of a last nonce.
fn nonce_text(alloc: Global, nonce: Option<u32>) -> Result<String, AllocError> {
    match nonce {
        Some(nonce) => format!(in alloc; "\"last_nonce\":{nonce},"),
        None => Ok(String::new(alloc)),
    }
}

// A device, in the form of a closing roster.
fn device_text(alloc: Global, devices: Devices, number: u32) -> Result<String, AllocError> {
    let (eui, slot) = names(devices, number);
    let nonce = nonce_text(alloc, nonce(devices, number))?;
    format!(in alloc;
        "{{\"dev_eui\":\"{eui:016x}\",\"join_eui\":\"0102030401020304\",{nonce}\"slot\":{slot}}}"
    )
}

// Puts a device behind the others.
fn push_device(
    text: &mut String,
    alloc: Global,
    devices: Devices,
    number: u32,
) -> Result<(), AllocError> {
    if number > 0 {
        text.push_str(",")?;
    }
    text.push_str(device_text(alloc, devices, number)?.as_str())
}

// A roster of so many devices, in the form of a closing roster.
fn text(alloc: Global, devices: Devices, count: u32) -> Result<String, AllocError> {
    let mut text = String::from_str(alloc, "{\"devices\":[")?;
    for number in 0..count {
        push_device(&mut text, alloc, devices, number)?;
    }
    text.push_str("],\"net_id\":\"000024\",\"rx1_offset\":0,\"rx_delay\":1,\"version\":2}")?;
    Ok(text)
}

// Lines, and then the line of a closing roster.
fn closed(alloc: Global, lines: &str, devices: Devices, count: u32) -> Result<String, AllocError> {
    let mut all = String::from_str(alloc, lines)?;
    all.push_str(text(alloc, devices, count)?.as_str())?;
    all.push_str("\n")?;
    Ok(all)
}

// Whether a run of no steps writes the roster of so many devices as it is.
fn is_written_again(alloc: Global, count: u32) -> Option<bool> {
    let roster = text(alloc, Devices::Numbered, count).ok()?;
    let lines = closed(alloc, "", Devices::Numbered, count).ok()?;
    is_written(alloc, roster.as_str(), true, b"", 1, lines.as_bytes())
}

// Whether the recorded run over 65,536 devices writes these lines, of which the closing roster is the last or none.
fn is_recorded(alloc: Global, closing: bool, lines: &str) -> Option<bool> {
    let roster = text(alloc, Devices::Crowded, 65_536).ok()?;
    let steps = text_of(alloc, STEPS).ok()?;
    let (steps, lines) = (steps.as_slice(), lines.as_bytes());
    is_written(alloc, roster.as_str(), closing, steps, 1 << 20, lines)
}

// The same with the closing roster.
fn is_recorded_closed(alloc: Global) -> Option<bool> {
    let lines = closed(alloc, LINES, Devices::Joined, 65_536).ok()?;
    is_recorded(alloc, true, lines.as_str())
}

/// The recorded run over many devices writes its lines, and then its closing roster.
#[test]
fn the_recorded_run_over_65536_devices(rt: HostRuntime) {
    assert!(rt; is_recorded(rt.alloc(), false, LINES) == Some(true));
    assert!(rt; is_recorded_closed(rt.alloc()) == Some(true));
}

#[test]
fn rosters_are_written_as_they_are(rt: HostRuntime) {
    for count in [0, 1, 2, 500, 65_536] {
        assert!(rt; is_written_again(rt.alloc(), count) == Some(true));
    }
}

// Why a roster of so many devices is refused, where it is.
fn fault_of(alloc: Global, count: u32) -> Option<RosterFault> {
    let more = text(alloc, Devices::Numbered, count).ok()?;
    Roster::read(alloc, more.as_bytes()).err()
}

#[test]
fn one_device_too_many(rt: HostRuntime) {
    assert!(rt; fault_of(rt.alloc(), 65_537) == Some(RosterFault::TooMany));
}
