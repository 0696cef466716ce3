//! The record of a server while its threads run: when it is written and looked after, and how it failed.
ghost use Rattle.std.specs.Prelude.{◌≡◌};
ghost use Rattle.std.specs.Duration.{as_nanos};

use crate::state::State;
use ns_log::{Log, error};
use ns_record_files::{RecordFiles, Recorder, Upkeep};
use ns_types::Failed;
use std::sync::Wait;
use std::thread;
use std::time::{Clock, Duration};

// How long it is waited before it is looked whether the server stops, and how often before the record is looked after again.
const NAP_MS: u64 = 50;

const NAPS: u32 = 20;

// How long a line waits at most until its write begins.
const WRITE_MS: u64 = 50;

/// Writes what was put down so far, before anything that rests on it leaves the server. Where that fails, all workers are to stop.
pub fn write_record<R: Wait>(rt: &R, state: &State) -> Result<(), Failed> {
    let Some(record) = &state.record else {
        return Ok(());
    };
    let written = record.write(rt);
    if written.is_err() {
        state.break_off();
    }
    written
}

// How long it is waited from one write to the next.
fn write_nap() -> Duration
    ensures { as_nanos result ≡ 50_000_000 }
{
    Duration::from_millis(WRITE_MS)
}

/// Writes each line within 50 ms of when it was put down, whatever else the server does, until no gateway worker is left.
pub fn write_in_time<R: Clock + Wait>(rt: &R, state: &State) {
    for _turn in rt.forever() {
        let is_last = state.is_deaf() || state.is_broken();
        if write_record(rt, state).is_err() || is_last {
            return;
        }
        thread::sleep(rt, write_nap());
    }
}

// Whether the record is looked after no more.
fn is_left_alone(state: &State) -> bool {
    state.is_over() || state.is_deaf()
}

/// Lets the record be looked after, about once a second, until the server stops.
pub fn look_after_record<R: Clock + Wait, U: Upkeep + Drop>(rt: &R, state: &State, mut upkeep: U) {
    let Some(record) = &state.record else {
        return;
    };
    for _turn in rt.forever() {
        upkeep.look_after(record);
        for _nap in 0..NAPS {
            if is_left_alone(state) {
                return;
            }
            thread::sleep(rt, Duration::from_millis(NAP_MS));
        }
    }
}

/// From now on the record is only written.
pub fn rest_record(state: &State) {
    if let Some(record) = &state.record {
        record.rest();
    }
}

/// Logs why the record failed, if it has, and says whether it has.
pub fn has_failed<R: Log>(rt: &R, record: Option<Recorder<RecordFiles>>) -> bool {
    let Some(record) = record else {
        return false;
    };
    let files = record.into_disk();
    log_failure(rt, &files);
    files.failure().is_some()
}

/// Logs why the files of a record failed, if they have.
pub fn log_failure<L: Log>(log: &L, files: &RecordFiles) {
    if let Some(failure) = files.failure() {
        error!(log; "record: {failure}");
    }
}
