//! Trims of a running server: when they come, and what a refused one leaves.

ghost use Rattle.std.specs.Prelude.{◌≡◌};
ghost use Rattle.std.specs.Arc.{arc_value};
ghost use Rattle.ns_shard.specs.State.{no_entries};
ghost use Rattle.ns_tally.specs.Tally.{AreNamed};

use crate::trial::all_but;
use ns_calls::Call;
use ns_device::parties::{Around, Ended};
use ns_device::worked::{ROSTER, roster_of};
use ns_log::{Discard, Log};
use ns_outside::{Open, Receipt};
use ns_roster::Roster;
use ns_serve_parts::PLACES;
use ns_serve_shards::{Trims, trim_due};
use ns_server::{Naming, Pass, Server};
use ns_tally::Blanks;
use ns_types::{DevEui, GatewayId, Heard, Ticket, WindowName};
use std::alloc::{AllocError, Global};
use std::marker::Brand;
use std::sync::{Arc, Wait};
use std::test::*;

// What is done before it is looked whether a trim is due, and with how much memory that is.
struct Turn {
    // How often the device asks to join first.
    asks: u32,
    // In which shard so many windows that are not open are closed.
    shard: u8,
    count: u32,
    // With how many blocks of memory alone it is looked, where that is to be little.
    blocks: Option<usize>,
}

// Of shard 13: its mark, how many entries trims dropped, how many there are; the first two of shard 12; and how many were made.
type Numbers = ([u64; 2], usize, [u64; 2], u128);

// How many entries are to lie between two trims, turns one after the other, and what they leave.
struct Case {
    every: u64,
    turns: &'static [Turn],
    left: Numbers,
}

const THREE: Turn = Turn {
    asks: 0,
    shard: 13,
    count: 3,
    blocks: None,
};

// The entry of the device's ticket stays. There is no memory for a trim.
const REFUSED: Turn = Turn {
    asks: 1,
    blocks: Some(0),
    ..THREE
};

static CASES: [Case; 3] = [
    // A shard is trimmed once so many entries were made since its last trim, not one entry earlier or later, and no other shard with it.
    // All entries are counted.
    Case {
        every: 4,
        turns: &[
            THREE,
            Turn { count: 1, ..THREE },
            Turn { shard: 12, ..THREE },
            THREE,
        ],
        left: ([4, 4], 3, [0, 0], 10),
    },
    // A trim that is refused memory drops nothing.
    Case {
        every: 1,
        turns: &[REFUSED],
        left: ([0, 0], 4, [0, 0], 4),
    },
    // It comes when it is looked for next.
    Case {
        every: 1,
        turns: &[REFUSED, Turn { count: 0, ..THREE }],
        left: ([4, 3], 1, [0, 0], 4),
    },
];

// One entry more in a shard.
fn add_one(made: &mut [u64; PLACES], shard: u8) {
    if let Some(count) = made.get_mut(usize::from(shard)) {
        *count = count.saturating_add(1);
    }
}

// The device asks to join: its ticket is open from then on.
fn asking() -> Call {
    let ticket = Ticket([
        0, 4, 3, 2, 1, 4, 3, 2, 1, 13, 0, 0, 0, 0, 0, 0, 0, 1, 0, 1, 0, 0, 0,
    ]);
    let heard = Heard {
        gateway: GatewayId(0xa1),
        moment: 1_000_000,
        freq: 868_100_000,
        dr: 5,
        rssi: -400,
        snr: 75,
    };
    Call::Join { ticket, heard }
}

// Closes a window of this shard that is not open.
fn closing(shard: u8) -> Call {
    let window = WindowName {
        eui: DevEui(u64::from(shard)),
        session: 1,
        fcnt: 2,
        round: 1,
    };
    Call::Close { window }
}

// Makes the calls of a turn.
fn make_calls<B: Naming, R: Wait>(
    rt: &R,
    server: &Server<B>,
    pass: &mut Pass<B>,
    made: &mut [u64; PLACES],
    turn: &Turn,
) -> Result<(), AllocError> {
    let calls = [(asking(), turn.asks), (closing(turn.shard), turn.count)];
    let mut receipt = Receipt::empty();
    for (call, count) in &calls {
        for _ in 0..*count {
            server.call_into(rt, pass, call, &Open, &mut receipt)?;
            add_one(made, receipt.shard);
        }
    }
    Ok(())
}

// Takes the turns. Whether all calls were made.
fn trim<B: Naming, R: Wait + Log>(
    rt: &R,
    alloc: Global,
    server: &Server<B>,
    passes: &mut Vec<Pass<B>>,
    case: &Case,
) -> Option<()> {
    let pass = passes.last_mut()?;
    let mut trims = Trims::new(case.every);
    let mut made = [0; PLACES];
    for turn in case.turns {
        make_calls(rt, server, pass, &mut made, turn).ok()?;
        let held = all_but(alloc, turn.blocks)?;
        let _ = trim_due(rt, alloc, server, &mut trims, &made);
        drop(held);
    }
    Some(())
}

fn trimmed_by<B: Naming, R: Wait + Log>(
    rt: &R,
    alloc: Global,
    roster: Arc<Roster>,
    blanks: Blanks,
    case: &Case,
) -> Option<Numbers>
    requires names { AreNamed B.ledger blanks.names }
    requires parts { (blanks.parts ≡ 1) × (B.workers ≡ 1) }
    requires roster { arc_value roster ≡ B.roster }
    requires begun { B.begun ≡ no_entries B.roster }
{
    let Ok((server, mut passes)) = Server::<B>::new(alloc, roster, 1, blanks) else {
        return None;
    };
    let is_made = trim(rt, alloc, &server, &mut passes, case).is_some();
    match server.settle(passes) {
        Ok(settled) if is_made => Some((
            [settled.mark(13), settled.dropped(13)],
            settled.history(13).len(),
            [settled.mark(12), settled.dropped(12)],
            settled.total(),
        )),
        _ => None,
    }
}

// What trims leave of a server of one device.
fn trimmed<R: Wait + Log>(rt: &R, alloc: Global, case: &Case) -> Option<Numbers> {
    let roster = roster_of(alloc, ROSTER)?;
    trimmed_by::<Brand, _>(rt, alloc, roster, Blanks::new(1), case)
}

/// Shards are trimmed when they are due, and a trim that was refused comes later.
#[test]
fn shards_are_trimmed(rt: HostRuntime) {
    let ended = Ended::new(0);
    let around = Around {
        rt: &rt,
        log: &Discard,
        held: &ended.held,
    };
    for case in &CASES {
        assert!(rt; trimmed(&around, rt.alloc(), case) == Some(case.left));
    }
}
