//! Workers in threads of their own: their receipts, the sum, the drain, and a pass that is missing.

use crate::caller::{Caller, Ended, receipt_of};
use crate::served::Work;
use crate::trial::{Trial, with_workers};
use ns_calls::Reply;
use ns_device::traffic;
use ns_outside::Receipt;
use std::alloc::AllocError;
use std::mem;
use std::test::*;

/// 100 devices join, and each of four workers hears one frame of each.
#[test]
fn four_workers(rt: HostRuntime) {
    with_workers(&rt, rt.alloc(), 100, 4, Trial::InThreads(Work::Hear));
}

/// Each worker makes 40 calls at random, so many together.
#[test]
fn random_calls(rt: HostRuntime) {
    for (workers, calls) in [(1usize, 40usize), (2, 80), (16, 640), (64, 2560)] {
        if workers > 0 && workers <= 64 {
            let trial = Trial::InThreads(Work::Wander(calls));
            with_workers(&rt, rt.alloc(), 48, workers, trial);
        }
    }
}

/// Whether what workers have done is as it is to be.
pub fn are_right<E: Ended>(
    settled: &mut E,
    receipts: &mut Vec<Receipt>,
    work: Work,
) -> Option<bool> {
    match work {
        Work::Hear => day(settled, receipts),
        Work::Wander(calls) => random_run(settled, receipts, calls),
        Work::AtOnce(gate) => Some(gate.is_right(receipts.as_slice())),
        Work::InTurn(gate) => Some(gate.is_right(receipts.as_slice())),
        Work::Join => None,
    }
}

// The receipts of a day, also with one that is wrong.
fn day<E: Ended>(settled: &mut E, receipts: &mut Vec<Receipt>) -> Option<bool> {
    let is_right = are_all(settled, receipts.as_slice(), 600)
        && are_counted(receipts.as_slice())
        && changed_is_found(settled, receipts)?
        && again_is_found(settled, receipts)?
        && drained_pass(settled, receipts)?;
    Some(is_right)
}

// How many receipts have which reply.
fn are_counted(receipts: &[Receipt]) -> bool {
    let mut counts = [0u32; 4];
    for receipt in receipts {
        let place = match receipt.entry.reply {
            Reply::Ask { .. } => 0,
            Reply::Accepted { .. } => 1,
            Reply::Opened { .. } => 2,
            Reply::Copied { .. } => 3,
            _ => continue,
        };
        counts[place] = counts[place].wrapping_add(1);
    }
    counts == [100, 100, 100, 300]
}

// A receipt of the same entry with which nothing goes out.
fn bare(receipt: &Receipt) -> Receipt {
    Receipt {
        shard: receipt.shard,
        entry: receipt.entry,
        uplink: None,
        downlink: None,
    }
}

// Whether a check of receipts finds this.
fn is_found<E: Ended>(settled: &E, receipts: &[Receipt], want: Result<(), usize>) -> bool {
    settled.check(receipts) == want
}

// Changes the reply of the receipt at place 250. The reply before.
fn change(receipts: &mut Vec<Receipt>, reply: Reply) -> Option<Reply> {
    Some(mem::replace(&mut receipts.get_mut(250)?.entry.reply, reply))
}

// Whether so many entries were made, as many receipts are there, and all pass.
fn are_all<E: Ended>(settled: &E, receipts: &[Receipt], count: usize) -> bool {
    receipts.len() == count
        && settled.total() == count as u128
        && is_found(settled, receipts, Ok(()))
}

// Whether a receipt whose reply is changed is found at its place.
fn changed_is_found<E: Ended>(settled: &E, receipts: &mut Vec<Receipt>) -> Option<bool> {
    let reply = change(receipts, Reply::JoinBusy)?;
    let is_wrong = is_found(settled, receipts.as_slice(), Err(250));
    let _ = change(receipts, reply)?;
    Some(is_wrong)
}

// Whether a receipt put again is found at the end.
fn again_is_found<E: Ended>(settled: &E, receipts: &mut Vec<Receipt>) -> Option<bool> {
    let again = bare(receipts.get(250)?);
    receipts.push(again).ok()?;
    let is_wrong = is_found(settled, receipts.as_slice(), Err(600));
    let _ = receipts.pop();
    Some(is_wrong)
}

// Takes away the downlink of the last of 700 receipts.
fn lose_downlink(receipts: &mut Vec<Receipt>) -> Option<()> {
    receipts.get_mut(699)?.downlink = None;
    Some(())
}

// Closes what is open, and all receipts pass; one that has lost its downlink is found.
fn drained_pass<E: Ended>(settled: &mut E, receipts: &mut Vec<Receipt>) -> Option<bool> {
    drained(settled, receipts).ok()?;
    let is_right = are_all(settled, receipts.as_slice(), 700);
    lose_downlink(receipts)?;
    Some(is_right && is_found(settled, receipts.as_slice(), Err(699)))
}

// Closes what is open, with a receipt of each.
fn drained<E: Ended>(settled: &mut E, receipts: &mut Vec<Receipt>) -> Result<(), AllocError> {
    for _ in 0..10_000u32 {
        let Some(receipt) = settled.drain_next() else {
            break;
        };
        receipts.push(receipt)?;
    }
    Ok(())
}

// There are so many receipts of calls at random, and all pass, before the drain and after it.
fn random_run<E: Ended>(
    settled: &mut E,
    receipts: &mut Vec<Receipt>,
    calls: usize,
) -> Option<bool> {
    let is_right = are_all(settled, receipts.as_slice(), calls);
    drained(settled, receipts).ok()?;
    Some(is_right && are_all(settled, receipts.as_slice(), receipts.len()))
}

/// One of two passes is not given back at first.
#[test]
fn a_pass_is_missing(rt: HostRuntime) {
    with_workers(&rt, rt.alloc(), 1, 2, Trial::HeldBack);
}

/// Makes one call. How many entries were made, where the pass counts it.
pub fn makes_one<C: Caller>(caller: &mut C) -> Option<u64> {
    let is_made = receipt_of(caller, traffic::join(0, 1)).is_some();
    (is_made && caller.made(0) == 1).then_some(1)
}

/// Whether one entry was made, in shard 0.
pub fn has_one<E: Ended>(settled: &E) -> bool {
    settled.total() == 1 && settled.counts(0) == (0, 0, 1) && settled.counts(1) == (0, 0, 0)
}
