//! What each worker of a server does with a call, and what comes of all workers.

use ns_outside::{Gate, Receipt};
use std::alloc::{AllocError, Global};
use std::sync::atomic::{AtomicU64, Ordering};

/// What a gate is told before a call's lock is taken, at the visit, and once the entry is made; and of how many entries.
#[derive(Drop)]
pub(crate) struct Told {
    before: AtomicU64,
    shard: AtomicU64,
    number: AtomicU64,
    made: AtomicU64,
    entries: AtomicU64,
}

impl Told {
    /// Nothing was told.
    pub fn new() -> Told {
        Told {
            before: AtomicU64::new(u64::MAX),
            shard: AtomicU64::new(u64::MAX),
            number: AtomicU64::new(u64::MAX),
            made: AtomicU64::new(u64::MAX),
            entries: AtomicU64::new(0),
        }
    }

    /// Of how many entries it was told.
    pub fn entries(&self) -> u64 {
        self.entries.load(Ordering::SeqCst)
    }

    /// Whether it was told of the entry of this receipt alone, and each time of its shard and its number: no other call of its shard came
    /// between.
    pub fn is_of(&self, receipt: &Receipt) -> bool {
        let (shard, number) = (u64::from(receipt.shard), receipt.entry.number);
        self.before.load(Ordering::SeqCst) == shard
            && self.shard.load(Ordering::SeqCst) == shard
            && self.number.load(Ordering::SeqCst) == number
            && self.made.load(Ordering::SeqCst) == number
            && self.entries() == 1
    }

    /// Keeps a receipt where it was told of its entry so, and there is memory.
    pub fn keep(&self, receipt: Receipt, receipts: &mut Vec<Receipt>) -> Result<(), AllocError> {
        if !self.is_of(&receipt) {
            return Err(AllocError);
        }
        receipts.push(receipt)?;
        Ok(())
    }
}

impl<R> Gate<R> for Told {
    fn before(&self, _rt: &R, shard: u8) {
        self.before.store(u64::from(shard), Ordering::SeqCst);
    }

    fn visit(&self, _rt: &R, shard: u8, number: u64) {
        self.shard.store(u64::from(shard), Ordering::SeqCst);
        self.number.store(number, Ordering::SeqCst);
    }

    fn made(&self, _rt: &R, receipt: &Receipt) {
        self.made.store(receipt.entry.number, Ordering::SeqCst);
        self.entries.fetch_add(1, Ordering::SeqCst);
    }
}

/// The passes of all workers; their receipts go behind the others.
pub fn parted<P: Drop>(
    alloc: Global,
    done: Vec<(P, Vec<Receipt>)>,
    receipts: &mut Vec<Receipt>,
) -> Result<Vec<P>, AllocError> {
    let mut passes = Vec::new(alloc);
    for (pass, mut mine) in done {
        passes.push(pass)?;
        receipts.append(&mut mine)?;
    }
    Ok(passes)
}
