//! States that calls at random leave, restored.

use crate::network::{INDEX, roster};
use crate::traffic::{Traffic, answer, left};
use ns_restore::{restore, tables_of};
use ns_shard::{Shard, same_tables};
use std::alloc::Global;

// Whether both shards answer so many further calls alike.
fn go_on_alike(
    traffic: &mut Traffic,
    one: &mut Shard,
    other: &mut Shard,
    calls: u32,
) -> Option<bool> {
    for _ in 0..calls {
        if let Some(call) = traffic.call(one) {
            if answer(one, call)? != answer(other, call)? {
                return Some(false);
            }
        }
    }
    Some(same_tables(one, other))
}

// Whether a state at random is reached, and goes on as the one that it was taken of.
fn is_reached(alloc: Global, seed: u64) -> Option<bool> {
    let devices = [1, 2, 4][(seed % 3) as usize];
    let calls = [20, 80, 300, 1000][(seed / 3 % 4) as usize];
    let roster = roster(alloc, devices)?;
    let mut traffic = Traffic::new(alloc, seed, devices);
    let mut shard = left(&mut traffic, &roster, calls)?;
    let tables = tables_of(alloc, &shard).ok()?;
    let mut restored = restore(alloc, roster, INDEX, &tables).ok()?;
    if !same_tables(&shard, &restored) {
        return Some(false);
    }
    go_on_alike(&mut traffic, &mut shard, &mut restored, 60)
}

/// Whatever calls leave is reached again.
#[test]
fn states_are_reached(rt: HostRuntime) {
    for seed in 0..60 {
        assert!(rt; is_reached(rt.alloc(), seed) == Some(true), "seed {seed}");
    }
}

/// The same, of other calls.
#[test]
fn more_states_are_reached(rt: HostRuntime) {
    for seed in 60..120 {
        assert!(rt; is_reached(rt.alloc(), seed) == Some(true), "seed {seed}");
    }
}
