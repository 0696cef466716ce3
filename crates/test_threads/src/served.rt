//! What the workers of a server do, each in a thread of its own.

use crate::caller::{Caller, Serves, keep};
use crate::gate_tests::{Turns, Until};
use crate::trial::{Outcome, Trial, by_last, by_pass};
use ns_calls::Call;
use ns_device::traffic;
use ns_outside::Receipt;
use std::alloc::{AllocError, Global};
use std::rt::Clock;
use std::thread;
use std::thread::Threads;

/// What a worker does.
#[derive(Clone, Copy)]
pub enum Work<'a> {
    /// Lets 100 devices join.
    Join,
    /// Hears the first frame of each of 100 devices, which have joined before.
    Hear,
    /// Makes 40 calls of 48 devices at random, so many by all workers together.
    Wander(usize),
    /// Is held at the gate while another calls on all other shards, or is that other.
    AtOnce(&'a Until),
    /// Makes one of two calls of one shard, of which the second comes while the first is at the gate.
    InTurn(&'a Turns),
}

impl<'a> Work<'a> {
    // How many calls it makes at most.
    fn calls(self) -> u32 {
        match self {
            Work::Join => 200,
            Work::Hear => 100,
            Work::Wander(_) => 40,
            _ => 0,
        }
    }

    // The call at a place, with a number at random.
    fn call_at(self, place: u32, random: u32) -> Option<Call> {
        match self {
            Work::Join if place % 2 == 0 => Some(traffic::join(place / 2, 1)),
            Work::Join => Some(traffic::join_reply(place / 2, 1)),
            Work::Hear => traffic::uplink(place, 0, true, 1),
            Work::Wander(_) => at_random(random),
            _ => None,
        }
    }

    /// What is made before the threads begin: where devices are to have joined, they do so, and where a shard is to have an entry, it gets
    /// one.
    pub fn begin<C: Caller>(self, caller: &mut C, receipts: &mut Vec<Receipt>) -> Option<()> {
        match self {
            Work::Hear => make_all(caller, Work::Join, receipts),
            Work::InTurn(_) => keep(caller, traffic::join(0, 1), receipts),
            _ => Some(()),
        }
    }

    /// What one worker does. Where there is no memory, its receipts end there.
    pub fn make<C: Caller>(self, caller: &mut C, receipts: &mut Vec<Receipt>) -> Option<()> {
        match self {
            Work::AtOnce(gate) => gate.work(caller, receipts),
            Work::InTurn(gate) => gate.work(caller, receipts),
            _ => make_all(caller, self, receipts),
        }
    }
}

// The call of a number at random.
fn at_random(random: u32) -> Option<Call> {
    let device = random / 65_536 % 48;
    let counter = random / 1024 % 4;
    match random / 16_777_216 % 8 {
        0 => Some(traffic::join(device, 1)),
        1 => Some(traffic::join_reply(device, 1)),
        2 => Some(traffic::closing(device, 1, counter)),
        _ => traffic::uplink(device, counter, counter == 1, 2),
    }
}

// Makes a worker's calls. The numbers at random begin with that of the first entry that the worker makes.
fn make_all<C: Caller>(caller: &mut C, work: Work, receipts: &mut Vec<Receipt>) -> Option<()> {
    let mut random = 0x2545_f491u32;
    for place in 0..work.calls() {
        random = random.wrapping_mul(1_664_525).wrapping_add(1_013_904_223);
        if let Some(call) = work.call_at(place, random) {
            keep(caller, call, receipts)?;
        }
        if let Some(last) = receipts.last() {
            random ^= (last.entry.number % 65_536) as u32;
        }
    }
    Some(())
}

// What all threads share.
#[derive(Drop)]
struct Shared<'a, S, R> {
    rt: &'a R,
    alloc: Global,
    server: &'a S,
    work: Work<'a>,
}

impl<'a, S: Serves<R>, R: Clock> Shared<'a, S, R> {
    // What one worker does with its pass.
    fn work_one(&self, pass: S::Pass) -> (S::Pass, Vec<Receipt>) {
        let mut pass = pass;
        let mut outcome = Outcome::new(self.alloc);
        let trial = Trial::InThreads(self.work);
        by_pass(
            self.rt,
            self.alloc,
            self.server,
            &mut pass,
            trial,
            &mut outcome,
        );
        (pass, outcome.receipts)
    }
}

/// Makes what comes before the threads, and lets a thread with each pass do the work. The pass and the receipts of each.
pub fn served<S: Serves<R> + Sync, R: Threads + Clock + Sync>(
    rt: &R,
    alloc: Global,
    server: &S,
    mut passes: Vec<S::Pass>,
    work: Work,
    outcome: &mut Outcome,
) -> Result<Vec<(S::Pass, Vec<Receipt>)>, AllocError>
where
    S::Pass: Send,
{
    by_last(rt, alloc, server, &mut passes, Trial::Begun(work), outcome);
    if outcome.made.is_none() {
        return Err(AllocError);
    }
    let shared = Shared {
        rt,
        alloc,
        server,
        work,
    };
    thread::map_vec(rt, passes, &|pass| shared.work_one(pass))
}
