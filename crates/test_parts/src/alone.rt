//! Each growth of a call refused alone: that of number 1, of number 2 and so on, until a run meets no refusal (`growths` of ns_device).
//! Where nothing refuses growths, each run is made once.

use crate::calls::{answers, call_of, roster};
use crate::growth::{NO_DEVICE, Steps, WORKED};
use crate::runs::{are_answered, ten_steps};
use crate::trims::is_joined;
use ns_calls::{Call, Entry, Reply, shard_of_call};
use ns_device::growths::{pause, refuse, resume, was_refused};
use ns_device::worked::UPLINK;
use ns_runs::{Shards, new_shards};
use ns_shard::{BoxedAnswer, Shard, TrimFault};
use ns_types::WindowName;
use std::alloc::Global;

// More growths than any of these has.
const MOST: u32 = 10_000;

// What is refused growths.
#[derive(Clone, Copy)]
enum Refused {
    // The calls of these steps, on the shard of this index.
    Calls(usize, Steps),
    // A closing with a boxed answer, of the window of the worked uplink.
    BoxedClosing,
    // A trim of the worked join, in place or not.
    Trim(bool),
    // A whole run of steps.
    Run,
}

// Makes a call of a shard, and once more if memory was refused, which left the shard as it was. Whether its answer begins with this line.
fn is_answered(
    alloc: Global,
    shard: &mut Shard,
    call: &Call,
    want: &str,
    before: &[Entry],
) -> bool {
    let oldest = shard.oldest();
    resume(alloc);
    let first = answers(shard, call, want);
    pause(alloc);
    match first {
        Some(is_right) => is_right,
        None => {
            shard.entries() == before
                && shard.oldest() == oldest
                && answers(shard, call, want) == Some(true)
        }
    }
}

// Makes the calls of steps on a new shard, with growth `n` of them refused. Whether one was; None if a call is not answered as wanted.
fn calls_alone(alloc: Global, index: usize, steps: Steps, n: u32) -> Option<bool> {
    let mut shards = new_shards(alloc, roster(alloc)?).ok()?;
    let shard = shards.get_mut(index)?;
    let mut before = Vec::with_capacity(alloc, steps.len()).ok()?;
    refuse(alloc, n);
    pause(alloc);
    for &(line, want, _) in steps {
        let call = call_of(alloc, line)?;
        if !is_answered(alloc, shard, &call, want, before.as_slice()) {
            return None;
        }
        before.push(*shard.entries().last()?).ok()?;
    }
    Some(was_refused(alloc))
}

// Opens the window of the worked uplink, after the worked join.
fn opened(alloc: Global, shard: &mut Shard) -> Option<WindowName> {
    let uplink = call_of(alloc, UPLINK)?;
    let is_open = is_joined(alloc, shard)
        && answers(shard, &uplink, "opened 000000000000000d 1 2") == Some(true);
    if is_open { shard.oldest() } else { None }
}

// Closes a window, with a boxed answer. None where memory was refused.
fn closed(alloc: Global, shard: &mut Shard, window: WindowName) -> Option<BoxedAnswer> {
    let call = Call::Close { window };
    if shard_of_call(&call) != shard.index() {
        return None;
    }
    shard.apply_boxed(alloc, &call).ok()
}

// Closes a window, and once more if memory was refused, which left the shard as it was.
fn closed_at_last(alloc: Global, shard: &mut Shard, window: WindowName) -> Option<BoxedAnswer> {
    let made = shard.made();
    let first = closed(alloc, shard, window);
    pause(alloc);
    if first.is_some() {
        return first;
    }
    if shard.made() != made || shard.oldest() != Some(window) {
        return None;
    }
    closed(alloc, shard, window)
}

// Closes the window of the worked uplink, with growth `n` of the closing refused. Whether one was; None if the uplink does not go out.
fn closing_alone(alloc: Global, n: u32) -> Option<bool> {
    let mut shards = new_shards(alloc, roster(alloc)?).ok()?;
    let shard = shards.get_mut(13)?;
    let window = opened(alloc, shard)?;
    refuse(alloc, n);
    let answer = closed_at_last(alloc, shard, window)?;
    let is_closed = answer.reply() == Reply::Closed { window, ack: None }
        && answer.has_uplink()
        && shard.oldest().is_none();
    is_closed.then_some(was_refused(alloc))
}

// Trims a shard, in place or not.
fn trim(alloc: Global, shard: &mut Shard, is_in_place: bool) -> Result<(), TrimFault> {
    if is_in_place {
        shard.trim_in_place(alloc)?;
    } else {
        shard.trim(alloc)?;
    }
    Ok(())
}

// Trims a new shard after the worked join, with growth `n` refused, and once more if it was refused memory, which left its entries. Whether
// a growth was refused; None if the trim does not leave one entry in the end.
fn trim_alone(alloc: Global, is_in_place: bool, n: u32) -> Option<bool> {
    let mut shards = new_shards(alloc, roster(alloc)?).ok()?;
    let shard = shards.get_mut(13)?;
    if !is_joined(alloc, shard) {
        return None;
    }
    let before = Vec::from_slice(alloc, shard.entries()).ok()?;
    refuse(alloc, n);
    let first = trim(alloc, shard, is_in_place);
    let refused = was_refused(alloc);
    if first == Err(TrimFault::NoMemory) && refused {
        if shard.entries() != before.as_slice() || shard.mark() != 0 {
            return None;
        }
        trim(alloc, shard, is_in_place).ok()?;
    } else {
        first.ok()?;
    }
    (shard.entries().len() == 1 && shard.mark() == 3).then_some(refused)
}

// Makes a run of ten steps, with growth `n` refused. Whether a growth was; None if there is neither the run nor a refusal.
fn run_alone(alloc: Global, n: u32) -> Option<bool> {
    let roster = roster(alloc)?;
    let steps = ten_steps(alloc)?;
    refuse(alloc, n);
    let run = Shards::run(alloc, roster, steps.as_slice());
    let refused = was_refused(alloc);
    match run {
        Ok(run) => are_answered(run.taken.as_slice()).then_some(refused),
        Err(_) => refused.then_some(true),
    }
}

// Whether growth `n` was refused; None if something came out otherwise than it should.
fn made_alone(alloc: Global, what: Refused, n: u32) -> Option<bool> {
    match what {
        Refused::Calls(index, steps) => calls_alone(alloc, index, steps, n),
        Refused::BoxedClosing => closing_alone(alloc, n),
        Refused::Trim(is_in_place) => trim_alone(alloc, is_in_place, n),
        Refused::Run => run_alone(alloc, n),
    }
}

// The growths that were refused, one in each run but the last; the number of a run that came out otherwise than it should is the error.
fn each_alone(alloc: Global, what: Refused) -> Result<u32, u32> {
    for n in 1..MOST {
        match made_alone(alloc, what, n) {
            Some(true) => {}
            Some(false) => return Ok(n),
            None => return Err(n),
        }
    }
    Err(MOST)
}

/// Each growth of the calls of the worked steps.
#[test]
fn each_growth_of_calls(rt: HostRuntime) {
    let worked = each_alone(rt.alloc(), Refused::Calls(13, WORKED));
    assert!(rt; worked.is_ok(), "{worked:?}");
    let unknown = each_alone(rt.alloc(), Refused::Calls(14, NO_DEVICE));
    assert!(rt; unknown.is_ok(), "{unknown:?}");
}

/// A boxed closing takes memory for what goes out before it changes anything: refused, the window is still open.
#[test]
fn each_growth_of_a_boxed_closing(rt: HostRuntime) {
    let refused = each_alone(rt.alloc(), Refused::BoxedClosing);
    assert!(rt; refused.is_ok(), "{refused:?}");
}

/// Each growth of a trim, which hands out its entries or not.
#[test]
fn each_growth_of_trims(rt: HostRuntime) {
    for is_in_place in [false, true] {
        let refused = each_alone(rt.alloc(), Refused::Trim(is_in_place));
        assert!(rt; refused.is_ok(), "{refused:?}");
    }
}

/// Each growth of a whole run of steps.
#[test]
fn each_growth_of_a_run(rt: HostRuntime) {
    let refused = each_alone(rt.alloc(), Refused::Run);
    assert!(rt; refused.is_ok(), "{refused:?}");
}
