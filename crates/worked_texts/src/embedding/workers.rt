//! What each worker does: its devices join, and then it hears an uplink of each device. And what is done between two rounds of them: trims.
//!
//! A worker's functions are over what makes calls (`Calls`), as the server does.

use crate::embedding::threads::DEVICES;
use ns_calls::Call;
use ns_device::traffic::{join, join_reply, uplink};
use ns_outside::{Calls, Open, Receipt};
use ns_server::{Naming, Server};
use ns_shard::TrimFault;
use std::alloc::{AllocError, Global};
use std::sync::Wait;
use std::thread;
use std::thread::Threads;

/// Lends the server to a thread for each pass, and waits for all of them. The passes come back; the receipts go behind the others.
pub fn round<S: Calls<R> + Sync, R: Threads + Sync>(
    rt: &R,
    alloc: Global,
    server: &S,
    passes: Vec<S::Pass>,
    counter: u32,
    receipts: &mut Vec<Receipt>,
) -> Result<Vec<S::Pass>, AllocError>
where
    S::Pass: Send,
{
    let done = thread::map_vec(
        rt,
        passes,
        &|pass| { work(rt, alloc, server, pass, counter) },
    )?;
    let mut passes = Vec::new(alloc);
    for (pass, mut mine) in done {
        passes.push(pass)?;
        receipts.append(&mut mine)?;
    }
    Ok(passes)
}

/// Trims one shard after the other: how many entries came out. Each is dropped here; a caller that wants to keep them writes them down.
/// It may be done while workers call: calls on the shard that is trimmed wait for it.
pub fn trim_all<B: Naming, R: Wait>(
    rt: &R,
    alloc: Global,
    server: &Server<B>,
) -> Result<usize, TrimFault> {
    let mut count = 0usize;
    for shard in 0..16u8 {
        let dropped = server.trim(rt, alloc, shard)?;
        count = count.wrapping_add(dropped.entries.len());
    }
    Ok(count)
}

// Makes a call, and keeps its receipt. Where memory is refused, no entry was made, or its receipt is not kept.
fn make<S: Calls<R>, R>(
    rt: &R,
    server: &S,
    pass: &mut S::Pass,
    call: Call,
    receipts: &mut Vec<Receipt>,
) -> Result<(), AllocError> {
    let mut receipt = Receipt::empty();
    server.call_into(rt, pass, &call, &Open, &mut receipt)?;
    receipts.push(receipt)?;
    Ok(())
}

// All devices join, and the uplink with this counter of each is heard. Calls that another worker made first are answered as copies, or as too late.
fn work<S: Calls<R>, R>(
    rt: &R,
    alloc: Global,
    server: &S,
    pass: S::Pass,
    counter: u32,
) -> (S::Pass, Vec<Receipt>) {
    let mut pass = pass;
    let mut receipts = Vec::new(alloc);
    for device in 0..DEVICES {
        let _ = make(rt, server, &mut pass, join(device, 1), &mut receipts);
        let _ = make(rt, server, &mut pass, join_reply(device, 1), &mut receipts);
        if let Some(call) = uplink(device, counter, false, 1) {
            let _ = make(rt, server, &mut pass, call, &mut receipts);
        }
    }
    (pass, receipts)
}
