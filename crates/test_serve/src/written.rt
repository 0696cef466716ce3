//! What leaves the server rests on steps that are written.

use crate::lives::{SHORT, resumed};
use ns_calls::{Bytes, Call, Downlink, Reply};
use ns_device::parties::{Writer, emptied, has_lines};
use ns_device::worked::{ROSTER, roster_of};
use ns_outside::{Downlinks, Receipt};
use ns_roster::Roster;
use ns_serve::{Begun, ServeOptions};
use ns_serve_events::record_call;
use ns_serve_sockets::{AfterRecord, ToSocket};
use ns_serve_state::{State, SystemFiles};
use ns_types::{DevEui, GatewayId, Sink, Target, WindowName};
use std::alloc::{Alloc, Global};
use std::fs;
use std::fs::File;
use std::rt::Files;
use std::sync::Wait;
use std::test::*;
use std::time::Clock;

// The folder of the record.
const FOLDER: &str = "test_serve_written";

// The receipt of a closing, which has a step line.
fn closed(fcnt: u32) -> Receipt {
    let window = WindowName {
        eui: DevEui(13),
        session: 1,
        fcnt,
        round: 1,
    };
    let mut receipt = Receipt::empty();
    receipt.entry.call = Call::Close { window };
    receipt.entry.reply = Reply::Closed {
        window,
        ack: Some(0),
    };
    receipt
}

// A downlink, which no socket is there for.
fn downlink() -> Downlink {
    Downlink {
        target: Target {
            gateway: GatewayId(161),
            moment: 0,
            freq: 868_100_000,
            dr: 5,
        },
        frame: Bytes::of(&[0x60; 12]),
    }
}

// Whether these are the steps in the file.
fn are_steps<R: Files<File = File>>(rt: &R, alloc: Global, steps: &[&str]) -> bool {
    has_lines(rt, alloc, FOLDER, "steps", steps)
}

// Writes a line behind what was put down of a state. Whether it was written.
fn is_written<R: Wait>(rt: &R, alloc: Global, state: &State) -> bool {
    let mut output: Vec<u8> = Vec::new(alloc);
    let mut writer = AfterRecord::new(rt, state, Writer::new(&mut output, u32::MAX));
    writer.write(b"up\n").is_ok()
}

// Puts down two steps. Whether each is written when something leaves, and the first not before that.
fn write_two<R: Files<File = File> + Wait + Clock>(rt: &R, alloc: Global, state: &State) -> bool {
    record_call(rt, state, &closed(0));
    let is_late = are_steps(rt, alloc, &[]);
    let is_sent = ToSocket { state }.send(rt, &downlink());
    let (first, second) = (
        "close 000000000000000d 1 0\n",
        "close 000000000000000d 1 1\n",
    );
    let is_first = are_steps(rt, alloc, &[first]);
    record_call(rt, state, &closed(1));
    let is_put = is_written(rt, alloc, state);
    is_late && !is_sent && is_first && is_put && are_steps(rt, alloc, &[first, second])
}

// Does so with the state of a server that begins with this.
fn write_with<R: Files<File = File> + Wait + Clock>(
    rt: &R,
    alloc: Global,
    roster: &Roster,
    options: &ServeOptions<'_>,
    begun: Begun,
) -> bool {
    let mut begun = begun;
    let record = begun.record.take();
    let made = begun.made();
    let system = SystemFiles::none();
    match State::new(
        rt, alloc, None, None, roster, options, made, record, None, system,
    ) {
        Ok(state) => write_two(rt, alloc, &state),
        Err(_) => false,
    }
}

// Does so with the record in the folder, which is there as long.
fn write_anew<R: Files<File = File> + Alloc + Wait + Clock>(rt: &R, alloc: Global) -> Option<bool> {
    emptied(rt, FOLDER)?;
    let options = SHORT.options(Some(1))?;
    let roster = roster_of(alloc, ROSTER)?;
    let is_written = match resumed(rt, alloc, &roster, FOLDER, false) {
        Ok(begun) => write_with(rt, alloc, &roster, &options, begun),
        Err(_) => false,
    };
    fs::remove_dir_all(rt, FOLDER).ok()?;
    Some(is_written)
}

/// Before a downlink is sent, and before bytes go to standard output, the steps that were put down are in the file.
#[test]
fn steps_are_written_before(rt: HostRuntime) {
    assert!(rt; write_anew(&rt, rt.alloc()) == Some(true));
}
