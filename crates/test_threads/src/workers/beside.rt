//! Workers on two threads, of which one is held at its gate.

use crate::gate_tests::is_past;
use crate::workers::runs::{Bench, Run, Runner, run_all};
use crate::workers::told::tell;
use ns_outside::{Calls, Gate, Receipt};
use std::sync::Wait;
use std::sync::atomic::{AtomicU64, Ordering};
use std::thread;
use std::thread::Threads;
use std::time::Clock;

/// Holds a call at its gate until the flag is up, for ten seconds at most, and counts the entries of shard 13.
#[derive(Drop)]
pub struct Until {
    flag: AtomicU64,
    late: AtomicU64,
    count: AtomicU64,
}

impl Until {
    /// A gate whose flag is up where this is 1.
    pub fn new(flag: u64) -> Until {
        Until {
            flag: AtomicU64::new(flag),
            late: AtomicU64::new(0),
            count: AtomicU64::new(0),
        }
    }

    /// How many entries of shard 13 were made by calls that visited it.
    pub fn made(&self) -> u64 {
        self.count.load(Ordering::SeqCst)
    }

    /// Puts the flag up.
    pub fn let_go(&self) {
        self.flag.store(1, Ordering::SeqCst);
    }
}

impl<R: Clock> Gate<R> for Until {
    fn visit(&self, rt: &R, _shard: u8, _number: u64) {
        if !is_past(rt, &self.flag, 0) {
            self.late.store(1, Ordering::SeqCst);
        }
    }

    fn made(&self, _rt: &R, receipt: &Receipt) {
        if receipt.shard == 13 {
            let _ = self.count.fetch_add(1, Ordering::SeqCst);
        }
    }
}

// Tells what another thread told, and whether a call was held at a gate too long.
fn tell_other(log: &mut String, other: &str, gate: &Until) -> Option<()> {
    log.push_str(other).ok()?;
    tell(log, "late", &[gate.late.load(Ordering::SeqCst)])
}

/// The first run is held at its gate until the others, on another thread, have ended. Tells what the first tells, what the others do, and
/// whether the first was held too long.
pub fn run_beside<S: Calls<R> + Sync, R: Threads + Wait + Clock + Sync>(
    bench: &Bench<'_, S, R>,
    one: &mut S::Pass,
    two: &mut S::Pass,
    log: &mut String,
    runs: &[Run],
) -> Option<()>
where
    S::Pass: Send,
{
    let (first, others) = runs.split_at_checked(1)?;
    let gate = Until::new(0);
    let held = Bench {
        rt: bench.rt,
        alloc: bench.alloc,
        server: bench.server,
        gate: &gate,
        known: bench.known,
    };
    let mut other = String::new(bench.alloc);
    let ran = run_both(
        bench.rt, &held, bench, one, two, log, &mut other, first, others,
    );
    let told = tell_other(log, other.as_str(), &gate);
    ran.and(told)
}

// The first runs are held until the others have ended.
fn run_both<N: Runner + Sync, M: Runner + Sync, R: Threads>(
    rt: &R,
    held: &N,
    free: &M,
    one: &mut N::Pass,
    two: &mut M::Pass,
    log: &mut String,
    other: &mut String,
    first: &[Run],
    others: &[Run],
) -> Option<()>
where
    N::Pass: Send,
    M::Pass: Send,
{
    let (ran, other_ran) = thread::join(
        rt,
        || run_all(held, one, log, first),
        || {
            let ran = run_all(free, two, other, others);
            held.let_go();
            ran
        },
    );
    ran.and(other_ran)
}
