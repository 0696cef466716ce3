//! The calls of one device, from the step lines of what gateways and join servers send, and the lines of their answers.

use ns_acts::Act;
use ns_calls::{Answer, Call, shard_of_call};
use ns_device::worked::{ROSTER, roster_of};
use ns_lines::lines;
use ns_roster::Roster;
use ns_shard::Shard;
use ns_steps::step;
use std::alloc::Global;
use std::sync::Arc;

/// The roster of the device.
pub fn roster(alloc: Global) -> Option<Arc<Roster>> {
    roster_of(alloc, ROSTER)
}

/// What a step line says. It may have a line feed.
pub fn act_of(alloc: Global, line: &str) -> Option<Act> {
    let mut room = Vec::new(alloc);
    let act = step(&mut room, line.trim_end().as_bytes()).ok()??;
    act.to_act(alloc).ok()
}

/// The call of a step line.
pub fn call_of(alloc: Global, line: &str) -> Option<Call> {
    ns_acts::call_of(alloc, &act_of(alloc, line)?.lend()).ok()?
}

/// Whether this is the first line of an answer.
pub fn begins_with(answer: &Answer, line: &str) -> bool {
    match lines(answer).first() {
        Some(first) => first.as_str() == line,
        None => false,
    }
}

/// Whether this is the first line of a shard's answer to a call of it. None where memory was refused.
pub fn answers(shard: &mut Shard, call: &Call, line: &str) -> Option<bool> {
    if shard_of_call(call) != shard.index() {
        return Some(false);
    }
    let answer = shard.apply(*call).ok()?;
    Some(begins_with(&answer, line))
}
