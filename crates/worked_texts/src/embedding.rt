//! A program that embeds the network server: it runs a few steps over a roster of one device, and takes one call to a shard of its own.
//! Then threads share a server (`threads.rt`).
//!
//! It is the example of docs/EMBEDDING.md, and `tools/new_program.py` makes a crate of it. Its comments say what an embedder may rely on
//! at each call, as the contract of that call states it.

ghost use Rattle.std.specs.Prelude.{◌≡◌, [], IfOk};
ghost use Rattle.std.specs.Arc.{arc_value};
ghost use Rattle.ns_calls.specs.Out.{answer};

mod steps;
mod threads;
mod workers;

use ns_calls::{Answer, Call, Outcome, shard_of_call};
use ns_kept::untrimmed_histories_read_as_they_are;
use ns_lines::lines;
use ns_roster::Roster;
use ns_runs::{Shards, Taken};
use ns_shard::Shard;
use ns_types::{GatewayId, Heard};
use std::alloc::{AllocError, Global};
use std::io;
use std::sync::{Arc, Wait};
use std::thread::Threads;

const ROSTER: &str =
    r#"{"version":1,"net_id":"000024","rx1_offset":0,"rx_delay":1,"devices":[{"dev_eui":"000000000000000d","join_eui":"0102030401020304","slot":1998321}]}"#;

// Prints the lines of an answer: that of the reply, then those of the uplink and the downlink that go out with it.
fn print_answer(rt: &impl Print, shard: u8, number: u64, answer: &Answer) -> io::Result<()> {
    for line in lines(answer) {
        println!(rt; "shard {shard}, entry {number}: {}", line.as_str())?;
    }
    Ok(())
}

// Prints what came of a step: a refusal by its number, or the answer of the entry that it made.
fn print_taken(rt: &impl Print, taken: &Taken) -> io::Result<()> {
    match taken {
        Taken::Link(fault) => println!(rt; "refused G{}", fault.number()),
        Taken::View(fault) => println!(rt; "refused V{}", fault.number()),
        Taken::Made {
            shard,
            number,
            answer,
        } => print_answer(rt, *shard, *number, &answer.to_answer()),
    }
}

/// Takes a call to its shard, which has no entries before: the answer is the plain server's first one. The shard is given back with it.
pub fn first_answer(
    alloc: Global,
    roster: Arc<Roster>,
    call: Call,
) -> Result<(Shard, Answer), AllocError>
    ensures { IfOk result (λ given. given.1 ≡ answer (arc_value roster) [] call) }
{
    // A new shard has no entries. Its number has to be less than 16, and that of each call is.
    let mut shard = Shard::new(alloc, roster, shard_of_call(&call))?;

    // The call has to be one of this shard. The answer is the plain server's, after the entries of the shard, and exactly the entry
    // of the call is added. Where memory is refused nothing has changed, and the same call can be made again. A law of ns_kept says
    // that entries of which none was dropped read as they are.
    untrimmed_histories_read_as_they_are();
    let answer = shard.apply(call)?;
    Ok((shard, answer))
}

// Runs the steps, then makes the one call, all on one thread, and prints what came of them.
fn one_thread(rt: &impl Print, alloc: Global) -> anyhow::Result<()> {
    // The roster is exactly what the text spells, and a valid one; otherwise the error is its first fault, O1 to O6, or no memory.
    let roster = Arc::new(alloc, Roster::read(alloc, ROSTER.as_bytes())?)?;

    // What came of each step is the plain server's answer, after the entries of its shard that the steps before it made. Accepted
    // nonces of a device, counters of a session and numbers of its acknowledgements strictly rise, and a window opens and closes at
    // most once.
    let steps = steps::worked_steps(alloc)?;
    let run = Shards::run(alloc, roster.clone()?, steps.as_slice())?;
    for taken in run.taken.as_slice() {
        print_taken(rt, taken)?;
    }

    own_shard(rt, alloc, roster)
}

// An embedder that keeps its own shards makes its own calls, without bytes to read.
fn own_shard(rt: &impl Print, alloc: Global, roster: Arc<Roster>) -> anyhow::Result<()> {
    let call = Call::Join {
        ticket: steps::TICKET,
        heard: Heard {
            gateway: GatewayId(0xa1),
            moment: 1_000_000,
            freq: 868_100_000,
            dr: 5,
            rssi: -400,
            snr: 75,
        },
    };
    let (mut shard, answer) = first_answer(alloc, roster, call)?;
    print_answer(rt, shard.index(), 0, &answer)?;

    // No answer came from the join server. The ticket is open, so this makes an entry, and takes no memory.
    if let Some(answer) = shard.join_reply(&steps::TICKET, Outcome::Failed) {
        print_answer(rt, shard.index(), 1, &answer)?;
    }
    Ok(())
}

/// Runs the example, and prints what came of it.
pub fn run<R: Threads + Wait + Print + AllocGlobal + Sync>(rt: &R) -> anyhow::Result<()> {
    let alloc = rt.alloc();
    one_thread(rt, alloc)?;
    threads::two_workers(rt, alloc)
}
