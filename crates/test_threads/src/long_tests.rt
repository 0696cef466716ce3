//! A long run with trims at random places, beside the same run without.

ghost use Rattle.std.specs.Prelude.{◌<◌};

use crate::caller::{Caller, receipt_of};
use crate::trial::{Left, Trial, on_server};
use ns_calls::{Answer, Call, Reply, shard_of_call};
use ns_device::traffic::{closing, join, join_reply, roster, uplink};
use ns_outside::Receipt;
use ns_shard::Shard;
use ns_types::WindowName;
use std::alloc::{AllocError, Global};
use std::sync::Arc;
use std::test::*;

// How many calls are made.
const CALLS: u32 = 100_000;

// How many devices there are: three of each shard.
const DEVICES: u32 = 48;

// How many calls are made before the devices join anew, with the next nonce, and count from 0 again.
const EPOCH: u32 = 8192;

// Numbers at random.
#[derive(Drop)]
struct Random {
    state: u32,
}

impl Random {
    // A number below this one, or 0.
    fn below(&mut self, bound: u32) -> u32 {
        self.state = self
            .state
            .wrapping_mul(1_664_525)
            .wrapping_add(1_013_904_223);
        (self.state / 65_536).checked_rem(bound).unwrap_or(0)
    }
}

// How often each of these came: joins that were accepted, uplinks that were opened, copied, opened again and old, and acknowledgements.
#[derive(Drop)]
struct Counts {
    accepted: u32,
    opened: u32,
    copied: u32,
    again: u32,
    old: u32,
    acknowledged: u32,
    trims: u32,
}

impl Counts {
    fn add(&mut self, reply: &Reply) {
        let count = match reply {
            Reply::Accepted { .. } => &mut self.accepted,
            Reply::Opened { .. } => &mut self.opened,
            Reply::Copied { .. } => &mut self.copied,
            Reply::Again { .. } => &mut self.again,
            Reply::Old { .. } => &mut self.old,
            Reply::Closed { ack: Some(_), .. } => &mut self.acknowledged,
            _ => return,
        };
        *count = count.wrapping_add(1);
    }

    // Whether each came often.
    fn are_many(&self) -> bool {
        let calls = [self.opened, self.copied, self.old, self.acknowledged];
        self.accepted > 300
            && self.again > 100
            && self.trims > 1000
            && calls.iter().all(|count| *count > 1000)
    }
}

// The same calls by a server whose shards are trimmed, and by shards that are not.
#[derive(Drop)]
struct Both {
    shards: Vec<Shard>,
    open: Vec<WindowName>,
    dropped: [u64; 16],
    counts: Counts,
}

// Sixteen shards with no entries.
fn shards(alloc: Global) -> Option<Vec<Shard>> {
    let roster = Arc::new(alloc, roster(alloc, DEVICES).ok()?).ok()?;
    let mut shards = Vec::new(alloc);
    for index in 0..16u8 {
        let shard = Shard::new(alloc, roster.clone().ok()?, index).ok()?;
        shards.push(shard).ok()?;
    }
    Some(shards)
}

// The call at a place of the run. Windows that are open are known from what was answered before.
fn call_at(random: &mut Random, open: &mut Vec<WindowName>, place: u32) -> Option<Call> {
    let device = random.below(DEVICES);
    let nonce = ((place / EPOCH % 65_536) as u16).wrapping_add(1);
    let counter = (place % EPOCH / 64).wrapping_add(random.below(4));
    match random.below(16) {
        0 => Some(join(device, nonce)),
        1 => Some(join_reply(device, nonce)),
        2 => Some(closing(device, 1, counter)),
        3..=6 => {
            let count = open.len();
            if count == 0 {
                return Some(closing(device, 1, counter));
            }
            // Half of the time the window that was opened last.
            let place = random.below((count % 32_768 * 2) as u32) as usize;
            let window = open.swap_remove(place.min(count - 1));
            Some(Call::Close { window })
        }
        _ => uplink(
            device,
            counter,
            counter % 2 == 1,
            ((random.below(16) % 16) as u8).wrapping_add(1),
        ),
    }
}

// Whether a receipt tells the answer.
fn is_told(receipt: &Receipt, answer: &Answer) -> bool {
    receipt.entry.reply == answer.reply
        && receipt.uplink == answer.uplink
        && receipt.downlink == answer.downlink
}

// Whether a shard answers a call, which is one of its own, as a receipt tells.
fn is_alike(shard: &mut Shard, receipt: &Receipt, call: &Call) -> Result<bool, AllocError> {
    if shard.index() != shard_of_call(call) {
        return Ok(false);
    }
    let number = shard.made();
    let answer = shard.apply(*call)?;
    Ok(is_told(receipt, &answer) && receipt.entry.number == number)
}

impl Both {
    // Nothing was made yet.
    fn new(alloc: Global) -> Option<Both> {
        Some(Both {
            shards: shards(alloc)?,
            open: Vec::new(alloc),
            dropped: [0; 16],
            counts: Counts {
                accepted: 0,
                opened: 0,
                copied: 0,
                again: 0,
                old: 0,
                acknowledged: 0,
                trims: 0,
            },
        })
    }

    // Whether a call that the server answered by this receipt is answered alike by its shard.
    fn is_answered(&mut self, receipt: &Receipt, call: &Call) -> Result<bool, AllocError> {
        self.counts.add(&receipt.entry.reply);
        if let Reply::Opened { window } | Reply::Again { window } = receipt.entry.reply {
            self.open.push(window)?;
        }
        match self.shards.get_mut(usize::from(shard_of_call(call))) {
            Some(shard) => is_alike(shard, receipt, call),
            None => Ok(false),
        }
    }

    // How many entries a shard has made.
    fn made(&self, place: usize) -> u64 {
        self.shards.get(place).map_or(0, |shard| shard.made())
    }

    // Trims a shard of the server. Whether the mark is how many entries were made, and 208 of each device are left at most.
    fn trim<C: Caller>(&mut self, caller: &mut C, index: u8) -> Option<bool> {
        let trimmed = caller.trim(index, false).ok()?;
        let (mark, count) = (trimmed.mark, trimmed.entries.len() as u64);
        drop(trimmed);
        Some(self.is_marked(usize::from(index % 16), mark, count))
    }

    // Whether as many entries of a shard were made as its trim's mark says, and few are left of them, of which it dropped so many.
    fn is_marked(&mut self, place: usize, mark: u64, count: u64) -> bool
        requires { place < 16 }
    {
        let made = self.made(place);
        let dropped = self.dropped[place].wrapping_add(count);
        self.dropped[place] = dropped;
        self.counts.trims = self.counts.trims.wrapping_add(1);
        mark == made && made.wrapping_sub(dropped) <= 624
    }

    // Makes a call at a place on both, and now and then a trim. Whether it is answered alike.
    fn step<C: Caller>(&mut self, caller: &mut C, random: &mut Random, place: u32) -> Option<bool> {
        if let Some(call) = call_at(random, &mut self.open, place) {
            let receipt = receipt_of(caller, call)?;
            if self.is_answered(&receipt, &call) != Ok(true) {
                return None;
            }
        }
        if random.below(61) == 0 {
            return self.trim(caller, (random.below(16) % 16) as u8);
        }
        Some(true)
    }

    // How many entries the trims dropped of each shard, and how many they left.
    fn put_left(&self, left: &mut Left) {
        for place in 0..16usize {
            let dropped = self.dropped[place];
            left[place] = (dropped, self.made(place).wrapping_sub(dropped));
        }
    }
}

#[test]
fn a_long_run_with_trims(rt: HostRuntime) {
    on_server(&rt, rt.alloc(), DEVICES, Trial::LongRun);
}

/// The calls, with trims, beside the same calls without. How many entries were made, and what is to be left.
pub fn long_run<C: Caller>(alloc: Global, caller: &mut C, left: &mut Left) -> Option<u64> {
    let mut both = Both::new(alloc)?;
    let mut random = Random { state: 0x2545_f491 };
    for place in 0..CALLS {
        if both.step(caller, &mut random, place) != Some(true) {
            return None;
        }
    }
    both.put_left(left);
    both.counts.are_many().then_some(u64::from(CALLS))
}
