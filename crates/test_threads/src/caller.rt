//! What tests ask of a server, of one of its workers, and of what a server leaves. Whoever is generic over `Serves`, `Caller` or `Ended`
//! has no type of the server in it, and is cheap to prove.

ghost use Rattle.std.specs.Prelude.{◌<◌};

use crate::gate_tests::{Visited, is_past};
use crate::work::Told;
use ns_calls::{Call, Entry, Reply};
use ns_outside::{Calls, Receipt};
use ns_server::{Naming, Pass, Server, Settled, Trim};
use ns_shard::{Dropped, TrimFault};
use std::alloc::Global;
use std::rt::Clock;
use std::sync::Wait;
use std::sync::atomic::AtomicU64;

/// What came of a trim: its mark, how many entries it dropped, and those that it handed out.
#[derive(Drop)]
pub struct Trimmed {
    pub mark: u64,
    pub count: u64,
    pub entries: Vec<Entry>,
}

impl Trimmed {
    // Of a trim in place, which hands none out.
    fn counted(alloc: Global, trim: Trim) -> Trimmed {
        Trimmed {
            mark: trim.mark,
            count: trim.dropped,
            entries: Vec::new(alloc),
        }
    }

    /// Of one that hands out what it drops.
    pub fn handed_out(dropped: Dropped) -> Trimmed {
        Trimmed {
            mark: dropped.mark,
            count: dropped.entries.len() as u64,
            entries: dropped.entries,
        }
    }
}

/// A server, as the workers of a test call it.
pub trait Serves<R>: Calls<R> {
    /// The receipt of a call that visits a gate, where memory was not refused.
    fn visit(
        &self,
        rt: &R,
        pass: &mut Self::Pass,
        call: Call,
        gate: Visited<'_>,
    ) -> Option<Receipt>;

    /// How many entries of a shard were made with a pass.
    fn made_with(&self, pass: &Self::Pass, shard: u8) -> u64
        requires { shard < 16 };

    /// Trims a shard, in the memory of its entries or not.
    fn trim_shard(
        &self,
        rt: &R,
        alloc: Global,
        shard: u8,
        in_place: bool,
    ) -> Result<Trimmed, TrimFault>;
}

impl<B: Naming, R: Wait + Clock> Serves<R> for Server<B> {
    fn visit(&self, rt: &R, pass: &mut Pass<B>, call: Call, gate: Visited<'_>) -> Option<Receipt> {
        self.call(rt, pass, call, &gate).ok()
    }

    fn made_with(&self, pass: &Pass<B>, shard: u8) -> u64 {
        pass.made(shard)
    }

    fn trim_shard(
        &self,
        rt: &R,
        alloc: Global,
        shard: u8,
        in_place: bool,
    ) -> Result<Trimmed, TrimFault> {
        if shard >= 16 {
            return Err(TrimFault::Full);
        }
        if in_place {
            let trim = self.trim_in_place(rt, alloc, shard)?;
            return Ok(Trimmed::counted(alloc, trim));
        }
        let dropped = self.trim(rt, alloc, shard)?;
        Ok(Trimmed::handed_out(dropped))
    }
}

/// Makes calls, and trims.
pub trait Caller {
    /// The receipt of a call that visits a gate, where memory was not refused.
    fn visit(&mut self, call: Call, gate: Visited<'_>) -> Option<Receipt>;

    /// How many entries of a shard it has made.
    fn made(&self, shard: u8) -> u64
        requires { shard < 16 };

    /// Trims a shard, in the memory of its entries or not.
    fn trim(&mut self, shard: u8, in_place: bool) -> Result<Trimmed, TrimFault>;

    /// Waits until a number is another than this one, for ten seconds at most. Whether it is.
    fn is_past(&self, number: &AtomicU64, first: u64) -> bool;
}

/// A worker with its pass.
#[derive(Drop)]
pub struct Worker<'a, S: Serves<R>, R> {
    pub rt: &'a R,
    pub alloc: Global,
    pub server: &'a S,
    pub pass: &'a mut S::Pass,
}

impl<'a, S: Serves<R>, R: Clock> Caller for Worker<'a, S, R> {
    fn visit(&mut self, call: Call, gate: Visited<'_>) -> Option<Receipt> {
        self.server.visit(self.rt, self.pass, call, gate)
    }

    fn made(&self, shard: u8) -> u64 {
        self.server.made_with(self.pass, shard)
    }

    fn trim(&mut self, shard: u8, in_place: bool) -> Result<Trimmed, TrimFault> {
        self.server.trim_shard(self.rt, self.alloc, shard, in_place)
    }

    fn is_past(&self, number: &AtomicU64, first: u64) -> bool {
        is_past(self.rt, number, first)
    }
}

/// The receipt of a call, where memory was not refused.
pub fn receipt_of<C: Caller>(caller: &mut C, call: Call) -> Option<Receipt> {
    caller.visit(call, Visited::Open)
}

/// The reply to a call, where memory was not refused.
pub fn reply_to<C: Caller>(caller: &mut C, call: Call) -> Option<Reply> {
    Some(receipt_of(caller, call)?.entry.reply)
}

/// Makes a call, and keeps its receipt, where there is memory and the gate was told of it.
pub fn keep<C: Caller>(caller: &mut C, call: Call, receipts: &mut Vec<Receipt>) -> Option<()> {
    let gate = Told::new();
    let receipt = caller.visit(call, Visited::Told(&gate))?;
    gate.keep(receipt, receipts).ok()
}

/// The histories of a server that has ended.
pub trait Ended {
    /// The entries of a shard that its last trim kept, and those made since.
    fn history(&self, shard: u8) -> &[Entry]
        requires { shard < 16 };

    /// How many entries of a shard were made before its last trim, how many its trims dropped, and how many there are.
    fn counts(&self, shard: u8) -> (u64, u64, u64)
        requires { shard < 16 };

    /// How many entries were made in all shards.
    fn total(&self) -> u128;

    /// Compares receipts with the histories.
    fn check(&self, receipts: &[Receipt]) -> Result<(), usize>;

    /// Closes the open window that was opened first.
    fn drain_next(&mut self) -> Option<Receipt>;
}

impl<B: Naming> Ended for Settled<B> {
    fn history(&self, shard: u8) -> &[Entry] {
        self.history(shard)
    }

    fn counts(&self, shard: u8) -> (u64, u64, u64) {
        let count = self.history(shard).len() as u64;
        (self.mark(shard), self.dropped(shard), count)
    }

    fn total(&self) -> u128 {
        self.total()
    }

    fn check(&self, receipts: &[Receipt]) -> Result<(), usize> {
        self.check(receipts)
    }

    fn drain_next(&mut self) -> Option<Receipt> {
        self.drain_next()
    }
}
