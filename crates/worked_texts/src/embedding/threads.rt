//! Threads that share one server: two workers hear the same uplinks, the server is trimmed, they hear the next ones, and then it is
//! settled, checked and drained.
//!
//! It is the second example of docs/EMBEDDING.md. Its comments say what an embedder may rely on at each call, as the contract of that
//! call states it, or of `Kept`, which lies under the lock.

ghost use Rattle.std.specs.Prelude.{◌≡◌, IfOk};
ghost use Rattle.std.specs.Arc.{arc_value};
ghost use Rattle.ns_shard.specs.State.{no_entries};
ghost use Rattle.ns_tally.specs.Tally.{AreNamed};
ghost use Rattle.ns_server.specs.Settled.{AreStates, MergesToLegal};

use crate::embedding::workers::{round, trim_all};
use anyhow::anyhow;
use ns_calls::Answer;
use ns_device::traffic::roster;
use ns_lines::lines;
use ns_outside::Receipt;
use ns_roster::Roster;
use ns_server::{Naming, Pass, Server, Settled};
use ns_tally::Blanks;
use std::alloc::Global;
use std::io;
use std::marker::Brand;
use std::sync::{Arc, Wait};
use std::thread::Threads;

/// How many devices there are. Each worker hears two uplinks of each.
pub const DEVICES: u32 = 3;

/// What a server of two workers has done when its threads have ended: its histories, and the receipts of all calls.
///
/// `B` names the server. Whoever makes one is generic over the name, and is called with `Brand`.
pub fn served<B: Naming + Send + Sync, R: Threads + Wait + Print + Sync>(
    rt: &R,
    alloc: Global,
    roster: Arc<Roster>,
    blanks: Blanks,
) -> anyhow::Result<(Settled<B>, Vec<Receipt>)>
    requires names { AreNamed B.ledger blanks.names }
    requires parts { (blanks.parts ≡ 2) × (B.workers ≡ 2) }
    requires roster { arc_value roster ≡ B.roster }
    requires begun { B.begun ≡ no_entries B.roster }
    ensures states { IfOk result (λ r. AreStates B.roster r.0) }
    ensures merges { IfOk result (λ r. MergesToLegal B.roster r.0) }
{
    // A server without entries, and as many passes as there are workers. A pass counts what was made with it.
    let (server, passes) = Server::<B>::new(alloc, roster, 2, blanks)?;
    let mut receipts = Vec::new(alloc);
    let passes = two_rounds(rt, alloc, &server, passes, &mut receipts)?;

    // With every pass given back the histories are as long as the passes have counted, each is legal, and so is every merge of them.
    // With one missing, both come back.
    match server.settle(passes) {
        Ok(settled) => Ok((settled, receipts)),
        Err(_) => Err(anyhow!("a pass is missing")),
    }
}

// Two rounds of the workers, with a trim between them.
fn two_rounds<B: Naming + Send + Sync, R: Threads + Wait + Print + Sync>(
    rt: &R,
    alloc: Global,
    server: &Server<B>,
    passes: Vec<Pass<B>>,
    receipts: &mut Vec<Receipt>,
) -> anyhow::Result<Vec<Pass<B>>> {
    // Each thread has a pass and shares the server. A call takes the lock of its shard alone; its receipt has the entry that it made,
    // whose reply is the plain server's after a history of the shard as long as its number, and what goes out with it.
    let passes = round(rt, alloc, server, passes, 0, receipts)?;

    // A trim takes the lock of one shard and hands out the entries on which no later answer rests. By `Kept::trim` at most 208 entries of
    // each device stay, with their numbers, and where memory is refused nothing has changed.
    print_dropped(rt, trim_all(rt, alloc, server)?)?;

    // Calls are answered as without the trim.
    Ok(round(rt, alloc, server, passes, 1, receipts)?)
}

fn print_dropped(rt: &impl Print, count: usize) -> io::Result<()> {
    println!(rt; "{count} entries dropped")
}

// Prints what was done, in an order that does not rest on the threads.
fn report<B: Naming, R: Print>(
    rt: &R,
    settled: &mut Settled<B>,
    receipts: &[Receipt],
) -> io::Result<()> {
    println!(rt; "{} entries, {} receipts", settled.total(), receipts.len())?;

    // What is left of a shard: the entries that its trim kept, and those made since, which are numbered from the mark on.
    for shard in 0..3u8 {
        let left = settled.history(shard).len();
        print_left(rt, shard, left, settled.dropped(shard), settled.mark(shard))?;
    }

    // Ok exactly where each receipt numbered from its shard's mark on stands in its shard's history with what goes out there, and no
    // two of these have one place. As many of them as the shard has entries from its mark on are all of these.
    print_check(rt, settled.check(receipts))?;

    // The oldest window of the first shard that has one is closed by one entry. None comes exactly where none is open, and then each
    // window that was opened was closed exactly once.
    for _ in 0..2 * DEVICES + 1 {
        match settled.drain_next() {
            Some(receipt) => print_receipt(rt, receipt)?,
            None => return println!(rt; "no window is open"),
        }
    }
    Ok(())
}

fn print_left(rt: &impl Print, shard: u8, left: usize, dropped: u64, mark: u64) -> io::Result<()> {
    println!(rt; "shard {shard}: {left} entries left, {dropped} dropped, mark {mark}")
}

fn print_check(rt: &impl Print, check: Result<(), usize>) -> io::Result<()> {
    match check {
        Ok(()) => println!(rt; "all receipts are right"),
        Err(place) => println!(rt; "receipt {place} is wrong"),
    }
}

// Prints what a receipt tells.
fn print_receipt(rt: &impl Print, receipt: Receipt) -> io::Result<()> {
    let shard = receipt.shard;
    let answer = Answer {
        reply: receipt.entry.reply,
        uplink: receipt.uplink,
        downlink: receipt.downlink,
    };
    for line in lines(&answer) {
        println!(rt; "shard {shard}: {}", line.as_str())?;
    }
    Ok(())
}

// Runs the server, and prints what was done.
fn run<B: Naming + Send + Sync, R: Threads + Wait + Print + Sync>(
    rt: &R,
    alloc: Global,
    roster: Arc<Roster>,
    blanks: Blanks,
) -> anyhow::Result<()>
    requires names { AreNamed B.ledger blanks.names }
    requires parts { (blanks.parts ≡ 2) × (B.workers ≡ 2) }
    requires roster { arc_value roster ≡ B.roster }
    requires begun { B.begun ≡ no_entries B.roster }
{
    let (mut settled, receipts) = served::<B, R>(rt, alloc, roster, blanks)?;
    report(rt, &mut settled, receipts.as_slice())?;
    Ok(())
}

/// A server of two workers over a roster of three devices: runs it, and prints what was done.
pub fn two_workers<R: Threads + Wait + Print + Sync>(rt: &R, alloc: Global) -> anyhow::Result<()> {
    let roster = Arc::new(alloc, roster(alloc, DEVICES)?)?;
    run::<Brand, R>(rt, alloc, roster, Blanks::new(2))
}
