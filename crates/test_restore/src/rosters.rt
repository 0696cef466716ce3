//! Tables under another roster.

use crate::network::{INDEX, eui, roster, roster_of};
use crate::traffic::{Traffic, left};
use ns_restore::{Fitted, fitting, restore, tables_of};
use ns_shard::Shard;
use ns_types::DevEui;
use std::alloc::Global;

// Another roster, each device with its slot: device 2 is gone, device 9 is new, and device 0 has another slot. The order is another one.
const OTHER: &[(usize, usize)] = &[(3, 1), (9, 4), (1, 0), (0, 7)];

// Whether a device has the same state in both shards.
fn is_same_of(one: &Shard, other: &Shard, device: usize) -> bool {
    match (
        one.devices().get(eui(device)),
        other.devices().get(eui(device)),
    ) {
        (Some(one), Some(other)) => one.state.is_same(&other.state),
        _ => false,
    }
}

// Whether a device has the greatest nonce and the next session that it had.
fn goes_on(one: &Shard, other: &Shard, device: usize) -> bool {
    match (
        one.devices().get(eui(device)),
        other.devices().get(eui(device)),
    ) {
        (Some(one), Some(other)) => {
            one.state.next_session() == other.state.next_session()
                && one.state.greatest() == other.state.greatest()
        }
        _ => false,
    }
}

// Whether a device has an open window.
fn has_window(shard: &Shard, device: DevEui) -> bool {
    shard.windows().count(device) > 0
}

// Whether just the moved device with a window has ended, and has no window any more.
fn has_ended(before: &Shard, after: &Shard, fitted: &Fitted) -> bool {
    let moved = eui(0);
    if has_window(after, moved) {
        return false;
    }
    match fitted.ended.as_slice() {
        [one] => *one == moved && has_window(before, moved) && !is_same_of(before, after, 0),
        [] => !has_window(before, moved),
        _ => false,
    }
}

// Whether a state at random goes on under the other roster.
fn fits(alloc: Global, seed: u64) -> Option<bool> {
    let mut traffic = Traffic::new(alloc, seed, 4);
    let before = left(&mut traffic, &roster(alloc, 4)?, 200)?;
    let other = roster_of(alloc, OTHER)?;
    let fitted = fitting(alloc, &other, INDEX, tables_of(alloc, &before).ok()?).ok()?;
    let after = restore(alloc, other, INDEX, &fitted.tables).ok()?;
    let others_stay = is_same_of(&before, &after, 1) && is_same_of(&before, &after, 3);
    let is_left_out = fitted.left_out.as_slice() == [eui(2)].as_slice();
    Some(
        others_stay
            && is_left_out
            && goes_on(&before, &after, 0)
            && has_ended(&before, &after, &fitted),
    )
}

/// A device less, one more, another order and another slot: all other devices are as they were.
#[test]
fn tables_fit_another_roster(rt: HostRuntime) {
    for seed in 1000..1040 {
        assert!(rt; fits(rt.alloc(), seed) == Some(true), "seed {seed}");
    }
}
