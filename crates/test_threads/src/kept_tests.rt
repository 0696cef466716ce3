//! A shard and the count of its entries, as it lies under a lock of a server, called without the lock.

ghost use Rattle.std.specs.Prelude.{◌≡◌};
ghost use Rattle.std.specs.Arc.{arc_value};
ghost use Rattle.ns_shard.specs.State.{no_entries};
ghost use Rattle.ns_tally.specs.Tally.{AreNamed};

use crate::caller::{Caller, Trimmed};
use crate::gate_tests::Visited;
use crate::growth_tests::{calls_refused, closed_without, trim_refused};
use crate::series::DEVICE;
use crate::trial::shared_roster;
use ns_calls::{Call, Reply, shard_of_call};
use ns_device::traffic::{closing, join, join_reply, uplink};
use ns_outside::Receipt;
use ns_roster::Roster;
use ns_server::{Kept, Naming, Pass};
use ns_shard::{Shard, TrimFault};
use ns_tally::{Blanks, Books};
use std::alloc::Global;
use std::marker::Brand;
use std::sync::Arc;
use std::sync::atomic::{AtomicU64, Ordering};
use std::test::*;

// A shard with no entries, the count of its entries, and a pass.
#[derive(Drop)]
struct Alone<B: Naming> {
    alloc: Global,
    kept: Kept<B, 13>,
    pass: Pass<B>,
}

impl<B: Naming> Alone<B> {
    // That of this roster. None where there is no memory for it.
    fn new(alloc: Global, roster: Arc<Roster>, blanks: Blanks) -> Option<Alone<B>>
        requires names { AreNamed B.ledger blanks.names }
        requires parts { (blanks.parts ≡ 1) × (B.workers ≡ 1) }
        requires roster { arc_value roster ≡ B.roster }
        requires begun { B.begun ≡ no_entries B.roster }
    {
        let Ok(shard) = Shard::new(alloc, roster, 13) else {
            drop(blanks);
            return None;
        };
        let (books, shares) = blanks.open::<B>();
        let Books {
            k0: _,
            k1: _,
            k2: _,
            k3: _,
            k4: _,
            k5: _,
            k6: _,
            k7: _,
            k8: _,
            k9: _,
            k10: _,
            k11: _,
            k12: _,
            k13,
            k14: _,
            k15: _,
        } = books;
        Some(Alone {
            alloc,
            kept: Kept::new(shard, k13),
            pass: Pass::new(shares),
        })
    }
}

impl<B: Naming> Caller for Alone<B> {
    fn visit(&mut self, call: Call, _gate: Visited<'_>) -> Option<Receipt> {
        if shard_of_call(&call) != 13 {
            return None;
        }
        self.kept.step(&mut self.pass, call).ok()
    }

    fn made(&self, shard: u8) -> u64 {
        self.pass.made(shard)
    }

    fn trim(&mut self, _shard: u8, _in_place: bool) -> Result<Trimmed, TrimFault> {
        let dropped = self.kept.trim(self.alloc)?;
        Ok(Trimmed::handed_out(dropped))
    }

    fn is_past(&self, number: &AtomicU64, first: u64) -> bool {
        number.load(Ordering::SeqCst) != first
    }
}

// What is done with a shard without a lock.
#[derive(Clone, Copy)]
enum Deed {
    Calls,
    Refused,
    Closings,
    TrimRefused,
}

// The calls of a day: a join, its answer, a confirmed uplink that two gateways hear, its closing, and a closing too many.
fn call_at(place: u64) -> Option<Call> {
    match place {
        0 => Some(join(DEVICE, 1)),
        1 => Some(join_reply(DEVICE, 1)),
        2 => uplink(DEVICE, 0, true, 1),
        3 => uplink(DEVICE, 0, true, 2),
        _ => Some(closing(DEVICE, 1, 0)),
    }
}

// Whether it is the reply to the call at a place, with what goes out there: an uplink at the closing, a downlink at the answer of the join
// and at the closing, which acknowledges.
fn is_reply_at(place: u64, receipt: &Receipt) -> bool {
    let sent = (receipt.uplink.is_some(), receipt.downlink.is_some());
    match receipt.entry.reply {
        Reply::Ask { .. } => place == 0 && sent == (false, false),
        Reply::Accepted { session, .. } => place == 1 && session == 1 && sent == (false, true),
        Reply::Opened { .. } => place == 2 && sent == (false, false),
        Reply::Copied { place: copy, .. } => place == 3 && copy == 2 && sent == (false, false),
        Reply::Closed { ack, .. } => place == 4 && ack == Some(0) && sent == (true, true),
        Reply::NoWindow => place == 5 && sent == (false, false),
        _ => false,
    }
}

// Makes the call at a place. Whether its receipt is of this call and the next number, with the reply and what goes out there, and shard and
// pass count one entry more.
fn is_right_at<B: Naming>(alone: &mut Alone<B>, place: u64) -> Option<bool> {
    let call = call_at(place)?;
    let receipt = alone.visit(call, Visited::Open)?;
    let counted = place.wrapping_add(1);
    Some(
        receipt.shard == 13
            && receipt.entry.number == place
            && receipt.entry.call == call
            && is_reply_at(place, &receipt)
            && alone.kept.made() == counted
            && alone.made(13) == counted
            && alone.made(0) == 0,
    )
}

// Makes the calls of a day. How many entries were made, where all is as it is to be.
fn day<B: Naming>(alone: &mut Alone<B>) -> Option<u64> {
    for place in 0..6u64 {
        if is_right_at(alone, place) != Some(true) {
            return None;
        }
    }
    Some(6)
}

// Does it with a new shard. How many entries were made, where all is as it is to be.
fn done<B: Naming>(alloc: Global, roster: Arc<Roster>, blanks: Blanks, deed: Deed) -> Option<u64>
    requires names { AreNamed B.ledger blanks.names }
    requires parts { (blanks.parts ≡ 1) × (B.workers ≡ 1) }
    requires roster { arc_value roster ≡ B.roster }
    requires begun { B.begun ≡ no_entries B.roster }
{
    let mut alone = Alone::<B>::new(alloc, roster, blanks)?;
    let made = match deed {
        Deed::Calls => day(&mut alone)?,
        Deed::Refused => calls_refused(alloc, &mut alone)?,
        Deed::Closings => closed_without(alloc, &mut alone)?,
        Deed::TrimRefused => trim_refused(alloc, &mut alone)?,
    };
    (alone.made(13) == made && alone.kept.made() == made).then_some(made)
}

// The same with the name of a server of one worker. How many entries were made, or 0.
fn made_by(alloc: Global, deed: Deed) -> u64 {
    let Some(roster) = shared_roster(alloc, 0, 1, 16) else {
        return 0;
    };
    let blanks = Blanks::new(1);
    done::<Brand>(alloc, roster, blanks, deed).unwrap_or(0)
}

/// Each step is one call of the shard, with its receipt, and counted in shard and pass.
#[test]
fn steps_are_counted(rt: HostRuntime) {
    let made = made_by(rt.alloc(), Deed::Calls);
    assert!(rt; made == 6, "{made}");
}

/// Closings and join answers that find their window or ticket open take no memory.
#[test]
fn closing_steps_take_no_memory(rt: HostRuntime) {
    let made = made_by(rt.alloc(), Deed::Closings);
    assert!(rt; made >= 26, "{made}");
}
