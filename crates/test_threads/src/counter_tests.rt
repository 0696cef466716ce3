//! Sessions of many uplinks, each opened and closed.

use crate::written::Run;
use itoa::Buffer;
use ns_creator::DataCreator;
use ns_device::traffic::keys;
use ns_device::worked::{ANSWER, JOIN};
use ns_secure::Dir;
use ns_types::DevAddr;
use std::alloc::{AllocError, Global};
use std::test::*;

/// What comes of a Join-Request and its answer.
pub const JOINED: &str = "\
ask 0004030201040302010d00000000000000010001000000
accepted 000000000000000d 1 49be7df1
down 00000000000000a1 6000000 868100000 5 20000102030405060708090a0b0c0d0e0f
";

// The uplink with this counter, whose payload is the text `test`.
fn frame(counter: u32) -> [u8; 17] {
    let creator = DataCreator {
        dir: Dir::Up,
        confirmed: false,
        addr: DevAddr(0x49be_7df1),
        flags: 0,
        counter,
        fopts: &[],
        port: Some(1),
        payload: b"test",
    };
    let mut frame = [0; 17];
    let _ = creator.write_into(&keys(), &mut frame);
    frame
}

// It is heard.
fn hear(run: &mut Run, alloc: Global, counter: u32) -> Result<(), AllocError> {
    let digits = hex::encode(alloc, frame(counter).as_slice())?;
    run.step(&[
        b"heard 010100000000000000a100000000000f424033be27a005fc4a004b11",
        digits.as_bytes(),
    ])
}

// It is heard and its window closed.
fn open_and_close(run: &mut Run, alloc: Global, counter: u32) -> Result<(), AllocError> {
    hear(run, alloc, counter)?;
    let mut buffer = Buffer::new();
    close(run, buffer.format(counter).as_bytes())
}

// The window of a counter is closed, which was opened before.
fn close(run: &mut Run, counter: &[u8]) -> Result<(), AllocError> {
    run.step(&[b"close 000000000000000d 1 ", counter])?;
    run.line(&[
        b"opened 000000000000000d 1 ",
        counter,
        b"\nclosed 000000000000000d 1 ",
        counter,
        b" -\nup 000000000000000d 1 ",
        counter,
        b" 1 plain - 74657374 1 00000000000000a1",
    ])
}

// Whether uplinks of so many counters are each opened and closed, from a first one on by steps. Behind the greatest of all none is new.
fn are_opened(alloc: Global, first: u32, step: u32, count: u32) -> Result<bool, AllocError> {
    let mut run = Run::new(alloc, &[JOIN, ANSWER], JOINED)?;
    let mut counter = first;
    for _ in 0..count {
        open_and_close(&mut run, alloc, counter)?;
        counter = counter.wrapping_add(step);
    }
    if counter.wrapping_sub(step) == u32::MAX {
        none_is_new(&mut run, alloc)?;
    }
    Ok(run.is_right(alloc))
}

// The greatest counter is heard again, and the least.
fn none_is_new(run: &mut Run, alloc: Global) -> Result<(), AllocError> {
    hear(run, alloc, u32::MAX)?;
    hear(run, alloc, 0)?;
    run.line(&[b"old 000000000000000d 1 4294967295\nnosession"])
}

#[test]
fn fifty_thousand_uplinks(rt: HostRuntime) {
    assert!(rt; are_opened(rt.alloc(), 0, 1, 50_000) == Ok(true));
}

/// The uplinks of the low half ffff up to the greatest counter, after which none is new.
#[test]
fn uplinks_up_to_the_last_counter(rt: HostRuntime) {
    assert!(rt; are_opened(rt.alloc(), 0xffff, 0x1_0000, 65_536) == Ok(true));
}
