//! A server on which workers run.

ghost use Rattle.std.specs.Prelude.{◌<◌, ◌≤◌};

use crate::caller::Ended;
use crate::trial::{Outcome, Trial, is_made};
use crate::workers::beside::{Until, run_beside};
use crate::workers::runs::{Bench, Run, run_all};
use crate::workers::told::tell_entries;
use crate::written::read_roster;
use ns_outside::Calls;
use ns_roster::Roster;
use std::alloc::Global;
use std::sync::Wait;
use std::thread::Threads;
use std::time::Clock;

// Two devices: 0d, and one whose DevEUI is over 2^32.
const ROSTER: &str =
    r#"{"version":1,"net_id":"000024","rx1_offset":0,"rx_delay":1,"devices":[{"dev_eui":"000000000000000d","join_eui":"0102030401020304","slot":1998321},{"dev_eui":"000000010000000e","join_eui":"0102030401020304","slot":7}]}"#;

/// Runs of workers on a server, and the devices that it knows.
#[derive(Clone, Copy)]
pub struct Runs<'a> {
    runs: &'a [Run],
    known: &'a Roster,
}

/// Runs workers in order with one pass, or beside each other with two, and tells what came of them. None where a run ends early.
pub fn run_on<S: Calls<R> + Sync, R: Threads + Wait + Clock + Sync>(
    rt: &R,
    alloc: Global,
    server: &S,
    passes: &mut [S::Pass],
    log: &mut String,
    runs: Runs,
) -> Option<()>
where
    S::Pass: Send,
{
    let bench = Bench {
        rt,
        alloc,
        server,
        gate: &Until::new(1),
        known: runs.known,
    };
    match passes {
        [one] => run_all(&bench, one, log, runs.runs),
        [one, two] => run_beside(&bench, one, two, log, runs.runs),
        _ => None,
    }
}

/// Tells the replies of shards 13 and 14.
pub fn tell_replies<E: Ended>(log: &mut String, settled: &E) -> Option<()> {
    tell_entries(log, settled.history(13))?;
    tell_entries(log, settled.history(14))
}

/// What the runs tell on a new server of so many workers, and then the replies of shards 13 and 14; and where one ends early, that it did.
pub fn told<R: Threads + Wait + Clock + Sync>(
    rt: &R,
    alloc: Global,
    workers: usize,
    runs: &[Run],
) -> String
    requires { (0 < workers) × (workers ≤ 64) }
{
    let mut outcome = Outcome::new(alloc);
    if is_told(rt, alloc, workers, &mut outcome, runs) != Some(true) {
        let _ = outcome.told.push_str("a run ended early");
    }
    outcome.told
}

// Tells what the runs tell on a new server. Whether there is memory for it, and none ends early.
fn is_told<R: Threads + Wait + Clock + Sync>(
    rt: &R,
    alloc: Global,
    workers: usize,
    outcome: &mut Outcome,
    runs: &[Run],
) -> Option<bool>
    requires { (0 < workers) × (workers ≤ 64) }
{
    let known = read_roster(alloc, ROSTER)?;
    let roster = known.clone().ok()?;
    let runs = Runs {
        runs,
        known: &known,
    };
    let made = is_made(rt, alloc, roster, workers, Trial::Workers(runs), outcome);
    Some(made == Ok(true))
}
