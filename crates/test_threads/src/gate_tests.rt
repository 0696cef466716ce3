//! Gates: a call of one shard held while all other shards answer, and two calls of one shard in turn.

use crate::caller::{Caller, receipt_of};
use crate::served::Work;
use crate::trial::{Trial, with_workers};
use crate::work::Told;
use ns_device::traffic;
use ns_outside::{Gate, Open, Receipt};
use std::rt::Clock;
use std::sync::atomic::{AtomicU64, Ordering};
use std::test::*;
use std::thread;
use std::time::Duration;

/// A call of one shard is held while all other shards answer.
#[test]
fn two_shards_at_once(rt: HostRuntime) {
    let gate = Until::new();
    with_workers(
        &rt,
        rt.alloc(),
        16,
        2,
        Trial::InThreads(Work::AtOnce(&gate)),
    );
}

/// Two calls of one shard come one after the other.
#[test]
fn one_shard_in_turn(rt: HostRuntime) {
    let gate = Turns::new();
    with_workers(
        &rt,
        rt.alloc(),
        16,
        2,
        Trial::InThreads(Work::InTurn(&gate)),
    );
}

/// Waits until a number is another than this one, for ten seconds at most. Whether it is.
pub fn is_past<R: Clock>(rt: &R, number: &AtomicU64, first: u64) -> bool {
    for _ in 0..10_000u32 {
        if number.load(Ordering::SeqCst) != first {
            return true;
        }
        let _ = thread::sleep(rt, Duration::from_millis(1));
    }
    false
}

/// Holds a call at its gate until the flag is up, for ten seconds at most, and keeps the number of its visit.
#[derive(Drop)]
pub struct Until {
    workers: AtomicU64,
    flag: AtomicU64,
    late: AtomicU64,
    number: AtomicU64,
}

impl Until {
    fn new() -> Until {
        Until {
            workers: AtomicU64::new(0),
            flag: AtomicU64::new(0),
            late: AtomicU64::new(0),
            number: AtomicU64::new(77),
        }
    }

    /// What one of two workers does: the first one's call on shard 0 is held until the other's, one on each of the fifteen others, are
    /// answered.
    pub fn work<C: Caller>(&self, caller: &mut C, receipts: &mut Vec<Receipt>) -> Option<()> {
        if self.workers.fetch_add(1, Ordering::SeqCst) == 0 {
            let held = caller.visit(traffic::join(0, 1), Visited::Until(self));
            return put(held, receipts);
        }
        let _ = caller.is_past(&self.number, 77);
        for device in 1..16u32 {
            put(receipt_of(caller, traffic::join(device, 1)), receipts)?;
        }
        self.flag.store(1, Ordering::SeqCst);
        Some(())
    }

    /// Whether the flag came in time, for the first entry of shard 0; and each of sixteen receipts is of the first entry of its shard.
    pub fn is_right(&self, receipts: &[Receipt]) -> bool {
        receipts.len() == 16
            && receipts.iter().all(|receipt| receipt.entry.number == 0)
            && self.late.load(Ordering::SeqCst) == 0
            && self.number.load(Ordering::SeqCst) == 0
    }
}

impl<R: Clock> Gate<R> for Until {
    fn visit(&self, rt: &R, _shard: u8, number: u64) {
        self.number.store(number, Ordering::SeqCst);
        if !is_past(rt, &self.flag, 0) {
            self.late.store(1, Ordering::SeqCst);
        }
    }
}

/// The first visit lasts for 100 turns, and the first entry is told for as long: another call may come to the gate meanwhile, and may not
/// visit it. Keeps the numbers of both.
#[derive(Drop)]
pub struct Turns {
    workers: AtomicU64,
    waiting: AtomicU64,
    visits: AtomicU64,
    early: AtomicU64,
    first: AtomicU64,
    second: AtomicU64,
}

impl Turns {
    fn new() -> Turns {
        Turns {
            workers: AtomicU64::new(0),
            waiting: AtomicU64::new(0),
            visits: AtomicU64::new(0),
            early: AtomicU64::new(0),
            first: AtomicU64::new(77),
            second: AtomicU64::new(77),
        }
    }

    /// What one of two workers does: each makes a call on shard 0, the second once the first visits the gate. Its receipt is kept where it
    /// is that of the second entry of the shard, or of the third.
    pub fn work<C: Caller>(&self, caller: &mut C, receipts: &mut Vec<Receipt>) -> Option<()> {
        let place = self.workers.fetch_add(1, Ordering::SeqCst);
        if place > 0 {
            let _ = caller.is_past(&self.visits, 0);
        }
        let receipt = caller.visit(traffic::join(0, 1), Visited::Turns(self))?;
        if receipt.entry.number == place.wrapping_add(1) {
            receipts.push(receipt).ok()?;
        }
        Some(())
    }

    /// Whether no call came too early, there were two visits, by the second entry and the third, and each call has its receipt.
    pub fn is_right(&self, receipts: &[Receipt]) -> bool {
        receipts.len() == 3
            && self.early.load(Ordering::SeqCst) == 0
            && self.visits.load(Ordering::SeqCst) == 2
            && self.first.load(Ordering::SeqCst) == 1
            && self.second.load(Ordering::SeqCst) == 2
    }

    // Waits for 100 turns, and sees whether a second visit came.
    fn wait<R: Clock>(&self, rt: &R) {
        for _ in 0..100u32 {
            let _ = thread::sleep(rt, Duration::from_millis(1));
        }
        if self.visits.load(Ordering::SeqCst) > 1 {
            self.early.store(1, Ordering::SeqCst);
        }
    }
}

impl<R: Clock> Gate<R> for Turns {
    fn before(&self, _rt: &R, _shard: u8) {
        let _ = self.waiting.fetch_add(1, Ordering::SeqCst);
    }

    fn visit(&self, rt: &R, _shard: u8, number: u64) {
        if self.visits.fetch_add(1, Ordering::SeqCst) > 0 {
            self.second.store(number, Ordering::SeqCst);
            return;
        }
        self.first.store(number, Ordering::SeqCst);
        self.wait(rt);
    }

    fn made(&self, rt: &R, receipt: &Receipt) {
        if receipt.entry.number != self.first.load(Ordering::SeqCst) {
            return;
        }
        self.wait(rt);
        if self.waiting.load(Ordering::SeqCst) != 2 {
            self.early.store(2, Ordering::SeqCst);
        }
    }
}

// Keeps a receipt.
fn put(receipt: Option<Receipt>, receipts: &mut Vec<Receipt>) -> Option<()> {
    receipts.push(receipt?).ok()
}

/// The gate that a call visits.
#[derive(Clone, Copy)]
pub enum Visited<'a> {
    Open,
    Told(&'a Told),
    Until(&'a Until),
    Turns(&'a Turns),
}

impl<R: Clock> Gate<R> for Visited<'_> {
    fn before(&self, rt: &R, shard: u8) {
        match self {
            Visited::Open => Open.before(rt, shard),
            Visited::Told(gate) => gate.before(rt, shard),
            Visited::Until(gate) => gate.before(rt, shard),
            Visited::Turns(gate) => gate.before(rt, shard),
        }
    }

    fn visit(&self, rt: &R, shard: u8, number: u64) {
        match self {
            Visited::Open => Open.visit(rt, shard, number),
            Visited::Told(gate) => gate.visit(rt, shard, number),
            Visited::Until(gate) => gate.visit(rt, shard, number),
            Visited::Turns(gate) => gate.visit(rt, shard, number),
        }
    }

    fn made(&self, rt: &R, receipt: &Receipt) {
        match self {
            Visited::Open => Open.made(rt, receipt),
            Visited::Told(gate) => gate.made(rt, receipt),
            Visited::Until(gate) => gate.made(rt, receipt),
            Visited::Turns(gate) => gate.made(rt, receipt),
        }
    }
}
